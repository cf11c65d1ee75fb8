// Laws of whole journals, over the definitions that `journal_text` is proved to follow.
#![tactic(auto)]

ghost use Rattle.std.specs.Prelude.{ℕ, ◌≡◌, List, []};
ghost use Rattle.text.specs.Words.{ascii};
ghost use Rattle.journal_text.specs.Journals.{journal_text, LineByLine, LongLinesAreOne};
ghost use Rattle.journal_laws.specs.Laws.{RefusedChangesNothing, EveryLineCounts};
ghost use Rattle.journal_laws.specs.Example.{input, printed};
ghost use Rattle.journal_laws.specs.Names.{NamesInWords};
ghost use Rattle.ids.specs.declared.PeerId.{PeerId};
ghost use Rattle.journal_effects.specs.declared.Effects.{Effects};

// A refused line leaves circuit, ledger, settings and reply buffer as they were.
pub fn refused_line_changes_nothing()
    ensures { RefusedChangesNothing }
{}

// n grows by one with each line, whatever becomes of it.
pub fn every_line_counts()
    ensures { EveryLineCounts }
{}

// The lines of an input are the line up to its first line feed, and the lines behind that.
pub fn line_by_line()
    ensures { LineByLine }
{}

// Of a line that is too long, the part that a buffer of 32,768 bytes or more holds says all.
pub fn long_lines_are_one()
    ensures { LongLinesAreOne }
{}

// An input without a byte, and the rule's worked example, byte by byte.
pub fn worked_example()
    ensures nothing { journal_text [] ≡ ascii "n=0 out=refused why=11\n" }
    ensures example { journal_text input ≡ printed }
{}

// Each name is printed in its words.
pub fn names_in_words()
    ensures { (e : Effects) (sent aims : List ℕ) (relay : PeerId) → NamesInWords e sent aims relay }
{}

// What the journal prints: one line for each output; what its buffer has no room for is left out.
#![tactic(auto)]

ghost use Rattle.std.specs.Prelude.{◌≡◌, List, [], ◌∷◌, ℕ, ◌*◌, ◌≤◌, length};
ghost use Rattle.wire.specs.Lists.{entries};
ghost use Rattle.text.specs.Printed.{page, with_text};
ghost use Rattle.forms.specs.Texts.{number, word, values_in};
ghost use Rattle.journal_prints.specs.Forms.{owned_form, named_form};
ghost use Rattle.journal_prints.specs.Outputs.{with_commas, targets_text, path_place, owned_text, line_text, none_text, path_text, open_text, send_text, reset_text, burst_text, close_text, upgrade_text, attributed_text, refused_text};
ghost use Rattle.journal_prints.specs.Room.{room, Output, Whole};

use ids::{ConnectionId, PeerId, StreamId};
use path::{Attribution, Owner, Path};
use refusal::Refusal;
use text::Printer;
use wire::EntryIter;

// A line by a form: the values that words stand for, bytes from a source, and a line feed.
#[tactic(auto, using(text::proofs::Printing::with_texts))]
fn put_line(form: &[u8], words: &[u64], source: &[u8], printer: &mut Printer<'_>)
    ensures { page printer.new ≡ with_text (page printer.old) (line_text form.now (values_in source.now form.now words.now)) }
{
    forms::put_form(form, words, source, printer);
    printer.put_byte(b'\n');
}

#[tactic(auto, unfolding(forms::specs::Texts::values_in, forms::specs::Texts::values_from, forms::specs::Texts::value_in, forms::specs::Forms::kind_of))]
pub fn put_none(n: u64, printer: &mut Printer<'_>)
    ensures { page printer.new ≡ with_text (page printer.old) (none_text n) }
{
    put_line(b"n=# out=none", &[n], b"", printer);
}

#[tactic(auto, unfolding(forms::specs::Texts::values_in, forms::specs::Texts::values_from, forms::specs::Texts::value_in, forms::specs::Forms::kind_of))]
pub fn put_path(n: u64, peer: PeerId, relay: PeerId, conn: ConnectionId, printer: &mut Printer<'_>)
    ensures { page printer.new ≡ with_text (page printer.old) (path_text n peer relay conn) }
{
    put_line(
        b"n=# out=path peer=# relay=# conn=#",
        &[n, peer.0, relay.0, conn.0],
        b"",
        printer,
    );
}

#[tactic(auto, unfolding(forms::specs::Texts::values_in, forms::specs::Texts::values_from, forms::specs::Texts::value_in, forms::specs::Forms::kind_of))]
pub fn put_open(n: u64, conn: ConnectionId, stream: StreamId, printer: &mut Printer<'_>)
    ensures { page printer.new ≡ with_text (page printer.old) (open_text n conn stream) }
{
    put_line(
        b"n=# out=open conn=# stream=#",
        &[n, conn.0, stream.0],
        b"",
        printer,
    );
}

#[tactic(auto, using(crate::proofs::Words::send_text))]
pub fn put_send(
    n: u64,
    conn: ConnectionId,
    stream: StreamId,
    message: &[u8],
    printer: &mut Printer<'_>,
)
    ensures { page printer.new ≡ with_text (page printer.old) (send_text n conn stream message.now) }
{
    put_line(
        b"n=# out=send conn=# stream=# data=%",
        &[n, conn.0, stream.0, 0, message.len() as u64],
        message,
        printer,
    );
}

#[tactic(auto, unfolding(forms::specs::Texts::values_in, forms::specs::Texts::values_from, forms::specs::Texts::value_in, forms::specs::Forms::kind_of))]
pub fn put_reset(n: u64, conn: ConnectionId, stream: StreamId, printer: &mut Printer<'_>)
    ensures { page printer.new ≡ with_text (page printer.old) (reset_text n conn stream) }
{
    put_line(
        b"n=# out=reset conn=# stream=#",
        &[n, conn.0, stream.0],
        b"",
        printer,
    );
}

// The addresses left of a list, a comma before each.
fn put_others(left: EntryIter<'_>, printer: &mut Printer<'_>)
    ensures { page printer.new ≡ with_text (page printer.old) (with_commas left.entry) }
{
    for address in left {
        printer.put_byte(b',');
        printer.put_hexadecimal(address);
    }
}

// The addresses of a list in order, commas between; of a broken list those before the break.
#[tactic(auto, using(text::proofs::Printing::with_texts, text::proofs::Printing::with_none), unfolding(crate::specs::Outputs::targets_text))]
fn put_targets(list: &[u8], printer: &mut Printer<'_>)
    ensures { page printer.new ≡ with_text (page printer.old) (targets_text (entries list.now)) }
{
    let mut left = wire::entries(list);
    if let Some(first) = left.next() {
        printer.put_hexadecimal(first);
        put_others(left, printer);
    }
}

// `targets` is an address list.
pub fn put_burst(n: u64, times: u64, payload: u64, targets: &[u8], printer: &mut Printer<'_>)
    ensures { page printer.new ≡ with_text (page printer.old) (burst_text n times payload targets.now) }
{
    let words = [n, times, payload];
    forms::put_form(
        b"n=# out=burst times=# payload=# target=",
        &words,
        b"",
        printer,
    );
    put_targets(targets, printer);
    printer.put_byte(b'\n');
}

#[tactic(auto, unfolding(forms::specs::Texts::values_in, forms::specs::Texts::values_from, forms::specs::Texts::value_in, forms::specs::Forms::kind_of))]
pub fn put_close(n: u64, conn: ConnectionId, printer: &mut Printer<'_>)
    ensures { page printer.new ≡ with_text (page printer.old) (close_text n conn) }
{
    put_line(b"n=# out=close conn=#", &[n, conn.0], b"", printer);
}

#[tactic(auto, unfolding(forms::specs::Texts::values_in, forms::specs::Texts::values_from, forms::specs::Texts::value_in, forms::specs::Forms::kind_of))]
pub fn put_upgrade(
    n: u64,
    peer: PeerId,
    old: ConnectionId,
    new: ConnectionId,
    printer: &mut Printer<'_>,
)
    ensures { page printer.new ≡ with_text (page printer.old) (upgrade_text n peer old new) }
{
    put_line(
        b"n=# out=upgrade peer=# old=# new=#",
        &[n, peer.0, old.0, new.0],
        b"",
        printer,
    );
}

// A form takes a word as its place in the choice: of `path`, relayed, punched, direct, none.
fn path_place(path: Path) -> u64
    ensures { result ≡ path_place path }
{
    match path {
        Path::Relayed { .. } => 0,
        Path::Punched => 1,
        Path::Direct => 2,
    }
}

// The place of the word for no path.
const NO_PATH: u64 = 3;

// A connection of an attempt.
#[tactic(auto, unfolding(forms::specs::Texts::values_in, forms::specs::Texts::values_from, forms::specs::Texts::value_in, forms::specs::Forms::kind_of))]
fn put_owned(n: u64, place: u64, id: u64, printer: &mut Printer<'_>)
    ensures { page printer.new ≡ with_text (page printer.old) (line_text owned_form (number n ∷ word place ∷ number id ∷ [])) }
{
    put_line(
        b"n=# out=attributed path=(relayed/punched/direct/none) owner=#",
        &[n, place, id],
        b"",
        printer,
    );
}

// One of no attempt.
#[tactic(auto, unfolding(forms::specs::Texts::values_in, forms::specs::Texts::values_from, forms::specs::Texts::value_in, forms::specs::Forms::kind_of))]
fn put_named(n: u64, place: u64, owner: u64, printer: &mut Printer<'_>)
    ensures { page printer.new ≡ with_text (page printer.old) (line_text named_form (number n ∷ word place ∷ word owner ∷ [])) }
{
    put_line(
        b"n=# out=attributed path=(relayed/punched/direct/none) owner=(inbound/none)",
        &[n, place, owner],
        b"",
        printer,
    );
}

fn put_owner(n: u64, place: u64, owner: Option<Owner>, printer: &mut Printer<'_>)
    ensures { page printer.new ≡ with_text (page printer.old) (owned_text n place owner) }
{
    match owner {
        Some(Owner::Attempt(id)) => put_owned(n, place, id.0, printer),
        Some(Owner::Inbound) => put_named(n, place, 0, printer),
        None => put_named(n, place, 1, printer),
    }
}

pub fn put_attributed(n: u64, found: Option<Attribution>, printer: &mut Printer<'_>)
    ensures { page printer.new ≡ with_text (page printer.old) (attributed_text n found) }
{
    match found {
        Some(found) => put_owner(n, path_place(found.path), found.owner, printer),
        None => put_owner(n, NO_PATH, None, printer),
    }
}

#[tactic(auto, unfolding(forms::specs::Texts::values_in, forms::specs::Texts::values_from, forms::specs::Texts::value_in, forms::specs::Forms::kind_of))]
pub fn put_refused(n: u64, refusal: Refusal, printer: &mut Printer<'_>)
    ensures { page printer.new ≡ with_text (page printer.old) (refused_text n refusal) }
{
    put_line(
        b"n=# out=refused why=#",
        &[n, refusal.number()],
        b"",
        printer,
    );
}

// ---- room

// The bytes of a burst before its targets, with three numbers of 20 digits.
const BURST_HEAD: usize = 96;

// Room for an output line: the longest is a burst, with two digits for each byte of its list, and a line feed.
pub const ROOM: usize = BURST_HEAD + 2 * candidates::CAPACITY + 1;

// No output is longer: a message is a frame that goes out, a list is one of targets.
pub fn outputs_are_short()
    ensures { (t : List ℕ) → Output t → length t ≤ room }
{}

// So a buffer of four lines' room holds four outputs whole.
pub fn four_outputs_fit()
    ensures { (buffer a b c d : List ℕ) → 4 * room ≤ length buffer → Output a → Output b → Output c → Output d → Whole buffer a b c d }
{}

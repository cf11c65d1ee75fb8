// What a circuit sends and refuses over any list of its calls, from its beginning on.
#![tactic(auto)]

ghost use Rattle.std.specs.Prelude.{◌≡◌, true, List, ℕ};
ghost use Rattle.ids.specs.declared.PeerId.{PeerId};
ghost use Rattle.ids.specs.declared.ConnectionId.{ConnectionId};
ghost use Rattle.inbound.specs.declared.InboundCircuit.{InboundCircuit};
ghost use Rattle.vocabulary.specs.declared.Settings.{Settings};
ghost use Rattle.history.specs.Calls.{Call, step_of};
ghost use Rattle.history.specs.Refusals.{ChangesNothing};
ghost use Rattle.history.specs.Numbers.{refused_with, answered_with};
ghost use Rattle.history.specs.Demand3.{Demand3, due, windows_of};
ghost use Rattle.history.specs.Answers.{said_is, EffectsByTheRule, LedgerByTheRule, BuffersByTheRule, RefusalsByTheRule, TookByTheRule, StartByTheRule, OwnList, DoneIsLast, ThreeEffects};
ghost use Rattle.history.specs.Questions.{QuestionsByTheRule};
ghost use Rattle.history.specs.Example.{source, relay, circuit, begun, calls, each, expected, sayings, lots, lots_of, told};
ghost use Rattle.history.specs.ThreeRounds as three;

// The datagrams of all answers are those of the book's windows, and no more than the bound.
pub fn demand_3()
    ensures { (source relay : PeerId) (circuit : ConnectionId) (s : Settings) (at : ℕ) (calls : List Call) → Demand3 source relay circuit s at calls }
{}

// A refused call, on any circuit, leaves the circuit, the ledger and the reply buffer as they were, and sends nothing.
pub fn refused_changes_nothing()
    ensures { (c : InboundCircuit) (call : Call) → (step_of c call).refused ≡ true → ChangesNothing c call }
{}

// Any circuit refuses a call with the number that the rule gives, and only there.
pub fn refused_by_the_rule()
    ensures { (c : InboundCircuit) (call : Call) → answered_with c call ≡ refused_with c call }
{}

// The effects of each answer are those that the book tells.
pub fn effects_by_the_rule()
    ensures { EffectsByTheRule }
{}

// Each call leaves of the ledger that it was lent what the book tells: as it was, or with the source's window removed, or opened to the deadline.
pub fn ledger_by_the_rule()
    ensures { (source relay : PeerId) (circuit : ConnectionId) (s : Settings) (at : ℕ) (calls : List Call) → LedgerByTheRule source relay circuit s at calls }
{}

// Each input leaves of the reply buffer that it was lent what the book tells.
pub fn buffers_by_the_rule()
    ensures { BuffersByTheRule }
{}

// Each call is refused with the number that the book gives, and only there.
pub fn refusals_by_the_rule()
    ensures { (source relay : PeerId) (circuit : ConnectionId) (s : Settings) (at : ℕ) (calls : List Call) → RefusalsByTheRule source relay circuit s at calls }
{}

// Each up takes the connection as the circuit's own just where the book tells it; no other call does, and no refused one.
pub fn took_by_the_rule()
    ensures { TookByTheRule }
{}

// A start is refused with 3 where the reading and the handshake together pass the last time, and only there.
pub fn start_by_the_rule()
    ensures { (source relay : PeerId) (circuit : ConnectionId) (s : Settings) (at : ℕ) → StartByTheRule source relay circuit s at }
{}

// After any calls the next deadline and the claim on a connection are those that the book gives.
pub fn questions_by_the_rule()
    ensures { (source relay : PeerId) (circuit : ConnectionId) (s : Settings) (at : ℕ) (calls : List Call) → QuestionsByTheRule source relay circuit s at calls }
{}

// No call changes a circuit that is Done, or has an effect there.
pub fn done_is_last()
    ensures { DoneIsLast }
{}

// No answer has more than three effects.
pub fn three_effects()
    ensures { ThreeEffects }
{}

// The CONNECT of an own list carries the candidates chosen from it, behind its length; that of a broken list is empty.
pub fn own_message()
    ensures { (s : Settings) (list : List ℕ) → OwnList s list }
{}

// The datagrams of each answer of the worked example.
pub fn worked_example()
    ensures { each begun calls ≡ expected }
{}

// What the book tells of the worked example.
pub fn told_example()
    ensures effects { said_is told ≡ sayings }
    ensures ledger { lots_of told ≡ lots }
{}

// The datagrams of each answer of a list with three rounds, and those of its book's windows.
pub fn three_rounds()
    ensures answers { each three.begun three.calls ≡ three.expected }
    ensures windows { due three.settings (windows_of source relay circuit three.settings 0 three.calls) ≡ three.all }
{}

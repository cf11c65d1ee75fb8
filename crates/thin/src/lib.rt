// Calls on a circuit behind `&mut`: each takes it out, makes the call by value, and stores the circuit that this leaves.
#![tactic(auto)]

ghost use Rattle.std.specs.Prelude.{◌≡◌, true, List, ℕ};
ghost use Rattle.ids.specs.declared.PeerId.{PeerId};
ghost use Rattle.ids.specs.declared.ConnectionId.{ConnectionId};
ghost use Rattle.inbound.specs.declared.InboundCircuit.{InboundCircuit};
ghost use Rattle.vocabulary.specs.declared.Settings.{Settings};
ghost use Rattle.ledger.specs.Ledger.{tables_of, laid};
ghost use Rattle.inbound.specs.Circuits.{tick_answer, wrote_answer, ledger_behind};
ghost use Rattle.thin.specs.Mixed.{Mixed, leaves, AsMade, Unchanged, Demand3Mixed};

use ids::{ConnectionId, StreamId};
use inbound::{Answer, InboundCircuit};
use ledger::Ledger;
use vocabulary::Host;

// The answer is the one by value, the circuit in it too.
pub fn on_tick(circuit: &mut InboundCircuit, ledger: &mut Ledger, host: Host, own: &[u8]) -> Answer
    ensures answer { result ≡ tick_answer circuit.old host own.now }
    ensures circuit { circuit.new ≡ (tick_answer circuit.old host own.now).circuit }
    ensures tables { tables_of ledger.new ≡ ledger_behind circuit.old (tables_of ledger.old) (tick_answer circuit.old host own.now) }
    ensures words { ledger.new ≡ laid (ledger_behind circuit.old (tables_of ledger.old) (tick_answer circuit.old host own.now)) ledger.old }
{
    let answer = InboundCircuit::on_tick(*circuit, ledger, host, own);
    let left = answer.circuit;
    *circuit = left;
    answer
}

pub fn on_write_completed(
    circuit: &mut InboundCircuit,
    at: u64,
    conn: ConnectionId,
    stream: StreamId,
) -> Answer
    ensures answer { result ≡ wrote_answer circuit.old at conn stream }
    ensures circuit { circuit.new ≡ (wrote_answer circuit.old at conn stream).circuit }
{
    let answer = InboundCircuit::on_write_completed(*circuit, at, conn, stream);
    let left = answer.circuit;
    *circuit = left;
    answer
}

// On any circuit a list with thin calls leaves and sends what the calls that they make leave and send.
pub fn thin_calls_count()
    ensures { (c : InboundCircuit) (calls : List Mixed) → AsMade c calls }
{}

// A refused one leaves the lent circuit as it was.
pub fn refused_leaves_the_circuit()
    ensures { (c : InboundCircuit) (call : Mixed) → (leaves c call).refused ≡ true → Unchanged c call }
{}

// Demand 3 of a list in which thin calls stand among the others.
pub fn demand_3_with_thin_calls()
    ensures { (source relay : PeerId) (circuit : ConnectionId) (s : Settings) (at : ℕ) (calls : List Mixed) → Demand3Mixed source relay circuit s at calls }
{}

// Laws of the path ledger, as promises: each is the contract of a function that does nothing.
#![tactic(auto)]

ghost use Rattle.std.specs.Prelude.{◌≡◌, Bool, true, List, ℕ, ◌≤◌, length, Err, None, Ok, Option, Some};
ghost use Rattle.ids.specs.declared.PeerId.{PeerId};
ghost use Rattle.ids.specs.declared.ConnectionId.{ConnectionId};
ghost use Rattle.refusal.specs.declared.Refusal.{Refusal};
ghost use Rattle.refusal.specs.declared.Refusal.TheVariants.{LedgerFull};
ghost use Rattle.refusal.specs.Number.{number_of};
ghost use Rattle.ids.specs.declared.NatToken.{NatToken};
ghost use Rattle.path.specs.declared.DialPurpose.{DialPurpose};
ghost use Rattle.path.specs.declared.Attribution.{Attribution};
ghost use Rattle.path.specs.declared.Claim.{Claim};
ghost use Rattle.path.specs.declared.Claim.TheVariants.{Circuit};
ghost use Rattle.path.specs.declared.Owner.{Owner};
ghost use Rattle.kinds.specs.declared.Row.{Row};
ghost use Rattle.kinds.specs.Kinds.{entry_of};
ghost use Rattle.rows.specs.Rows.{find_in, lasts};
ghost use Rattle.entries.specs.Entries.{dial_at, path_at, window_open};
ghost use Rattle.ledger.specs.Ledger.{PathLedger};
ghost use Rattle.ledger.specs.Ledger.{empty_ledger, dials_of, windows_of, paths_of, dial_started, expect_punches, end_punches, ticked, judged_by, attributed, forgotten};
ghost use Rattle.ledger_laws.specs.Calls.{Call, after_all};
ghost use Rattle.ledger_laws.specs.Laws.{InOrder, Why, In, spares_all, Needs65};

// A connection that `attribute` names has its name by one of five cases.
pub fn one_of_five()
    ensures { (l : PathLedger) (conn : ConnectionId) (peer : PeerId) (circuit : Bool) (claim : Option Claim) (now : ℕ) (a : Attribution) → (attributed l conn peer circuit claim now).answer ≡ Ok (Some a) → Why circuit (dial_at conn (dials_of l)) claim (window_open peer now (windows_of l)) a }
{}

// The row that `attribute` leaves says what it answered.
pub fn row_says_answer()
    ensures { (l : PathLedger) (conn : ConnectionId) (peer : PeerId) (circuit : Bool) (claim : Option Claim) (now : ℕ) (a : Attribution) → (attributed l conn peer circuit claim now).answer ≡ Ok (Some a) → path_at conn (paths_of (attributed l conn peer circuit claim now).ledger) ≡ Some a }
{}

// A connection keeps its name over any calls that neither attribute nor forget it.
pub fn name_is_kept()
    ensures { (l : PathLedger) (conn : ConnectionId) (calls : List Call) → spares_all conn calls ≡ true → path_at conn (paths_of (after_all l calls)) ≡ path_at conn (paths_of l) }
{}

// Opening or closing a window of one peer changes no answer for a connection of another.
pub fn window_is_its_peers()
    ensures closed { (l : PathLedger) (conn : ConnectionId) (peer other : PeerId) → (peer.0 ≡ other.0 → ⊥) → (circuit : Bool) (claim : Option Claim) (now : ℕ) → (attributed (end_punches l other) conn peer circuit claim now).answer ≡ (attributed l conn peer circuit claim now).answer }
    ensures opened { (l : PathLedger) (conn : ConnectionId) (peer other : PeerId) → (peer.0 ≡ other.0 → ⊥) → (circuit : Bool) (claim : Option Claim) (until now : ℕ) → (attributed (expect_punches l other until).ledger conn peer circuit claim now).answer ≡ (attributed l conn peer circuit claim now).answer }
{}

// After `forget` neither a dial nor a path of the connection is left.
pub fn nothing_is_left()
    ensures { (l : PathLedger) (conn : ConnectionId) → (find_in conn.0 (dials_of (forgotten l conn).ledger) ≡ None) × (find_in conn.0 (paths_of (forgotten l conn).ledger) ≡ None) }
{}

// A tick frees the windows that ended by its reading, and no others.
pub fn ended_windows_are_freed()
    ensures { (l : PathLedger) (now : ℕ) (row : Row) → (In row (windows_of (ticked l now)) → In row (windows_of l) × (lasts now (entry_of row) ≡ true)) × (In row (windows_of l) → lasts now (entry_of row) ≡ true → In row (windows_of (ticked l now))) }
{}

// Over any calls from the empty ledger the tables stay ascending, with one row for each key.
pub fn tables_stay_ascending()
    ensures { (calls : List Call) → InOrder (after_all empty_ledger calls) }
{}

// A dial, a window or a name is refused just where a 65th row would be needed. The number is 4, and the ledger is as it was.
pub fn refused_at_the_65th_row()
    ensures dials { (l : PathLedger) → length (dials_of l) ≤ 64 → (conn : ConnectionId) (token : NatToken) (purpose : DialPurpose) → ((why : Refusal) → (dial_started l conn token purpose).outcome ≡ Err why → (number_of why ≡ 4) × ((dial_started l conn token purpose).ledger ≡ l) × Needs65 conn.0 (dials_of l)) × (Needs65 conn.0 (dials_of l) → (dial_started l conn token purpose).outcome ≡ Err LedgerFull) }
    ensures windows { (l : PathLedger) → length (windows_of l) ≤ 64 → (peer : PeerId) (until : ℕ) → ((why : Refusal) → (expect_punches l peer until).outcome ≡ Err why → (number_of why ≡ 4) × ((expect_punches l peer until).ledger ≡ l) × Needs65 peer.0 (windows_of l)) × (Needs65 peer.0 (windows_of l) → (expect_punches l peer until).outcome ≡ Err LedgerFull) }
    ensures paths { (l : PathLedger) → length (paths_of l) ≤ 64 → (conn : ConnectionId) (peer : PeerId) (circuit : Bool) (claim : Option Claim) (now : ℕ) → ((why : Refusal) → (attributed l conn peer circuit claim now).answer ≡ Err why → (number_of why ≡ 4) × ((attributed l conn peer circuit claim now).ledger ≡ l) × Needs65 conn.0 (paths_of l)) × ((a : Attribution) → judged_by l conn peer circuit claim now ≡ Some a → Needs65 conn.0 (paths_of l) → (attributed l conn peer circuit claim now).answer ≡ Err LedgerFull) }
{}

// A circuit without a circuit's claim gets no row, also where 64 stand in the table: nothing is refused, and the ledger is as it was.
pub fn no_claim_no_row()
    ensures { (l : PathLedger) (conn : ConnectionId) (peer : PeerId) (claim : Option Claim) (now : ℕ) → ((relay : PeerId) (owner : Option Owner) → claim ≡ Some (Circuit relay owner) → ⊥) → ((attributed l conn peer true claim now).answer ≡ Ok None) × ((attributed l conn peer true claim now).ledger ≡ l) }
{}

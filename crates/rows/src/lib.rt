// The path ledger's three tables, as words that the host lends. A table is the count of its rows in use, and behind it 64 places of five
// words each, the rows in use first. Any words are a ledger: a count past 64 counts as 64. No other crate knows how rows lie.
#![tactic(auto)]

ghost use Rattle.std.specs.Prelude.{◌≡◌, ◌++◌, ◌≤◌, ◌<◌, ◌+◌, ◌*◌, ◌-◌, length, set, get_or, take, drop, replicate};
ghost use Rattle.prelude.specs.Choice.{no};
ghost use Rattle.rows.specs.Rows.{capacity, keeps_row, kept, find_in, without, crowded, marked, marks_by};
ghost use Rattle.kinds.specs.declared.Entry.{Entry};
ghost use Rattle.rows.specs.declared.Keep.TheVariants.{Below};
ghost use Rattle.rows.specs.declared.Table.TheVariants.{Paths};
ghost use Rattle.rows.specs.Words.{at, no_row, start_of, ledger_words, places_of, rows_from, rows_of, tabled, filled, brought, divided, count_word, laid_from, laid, entered};

use kinds::{Entry, Row};

// How many rows a table has room for.
pub const ROWS: usize = 64;

const ROW_WORDS: usize = 5;

// The count, and the words of each row.
const TABLE_WORDS: usize = 1 + ROW_WORDS * ROWS;

pub type Ledger = [u64; 3 * TABLE_WORDS];

// In the order in which they stand.
#[derive(Clone, Copy)]
pub enum Table {
    // Started dials, by connection.
    Dials,
    // Peers whose next direct connections are punches, until a deadline.
    Windows,
    // The attribution of each connection.
    Paths,
}

// Which rows are kept.
#[derive(Clone, Copy)]
pub enum Keep {
    Below(u64),
    Above(u64),
    Other(u64),
    Lasting(u64),
}

// For each place whether its row is kept.
pub type Marks = [bool; ROWS];

// ---- rows

fn no_row() -> Row
    ensures { result ≡ no_row }
{
    Row {
        key: 0,
        kind: 0,
        a: 0,
        b: 0,
        c: 0,
    }
}

#[tactic(auto, using(crate::proofs::Lasting::lasts_is, crate::proofs::Lists::not_no))]
fn keeps(keep: Keep, row: Row) -> bool
    ensures { result ≡ keeps_row keep row }
{
    match keep {
        Keep::Below(k) => row.key < k,
        Keep::Above(k) => k < row.key,
        Keep::Other(k) => row.key != k,
        Keep::Lasting(now) => row.kind != kinds::WINDOW || now < row.a,
    }
}

// ---- words

// How many words a ledger has: a fact for the proofs.
pub fn known(l: &Ledger)
    ensures { length l.now ≡ ledger_words }
{}

fn start_of(table: Table) -> usize
    ensures { (result ≡ start_of table) × (result ≤ start_of Paths) }
{
    match table {
        Table::Dials => 0,
        Table::Windows => TABLE_WORDS,
        Table::Paths => 2 * TABLE_WORDS,
    }
}

// How many rows are in use.
#[tactic(auto, using(crate::proofs::Words::used_is))]
pub fn used(l: &Ledger, table: Table) -> usize
    ensures { (result ≡ length (rows_of table l.now)) × (result ≤ capacity) }
{
    l[start_of(table)].min(ROWS as u64) as usize
}

// Where the row i begins.
fn place(table: Table, i: usize) -> usize
    requires { i ≤ capacity }
    ensures { (result ≡ start_of table + 1 + 5 * i) × (result ≤ start_of Paths + 1 + 5 * i) }
{
    start_of(table) + 1 + ROW_WORDS * i
}

#[tactic(auto, using(crate::proofs::Words::key_is))]
fn key_at(l: &Ledger, table: Table, i: usize) -> u64
    requires { i < capacity }
    ensures { result ≡ (get_or (places_of (start_of table) l.now) i no_row).key }
{
    l[place(table, i)]
}

#[tactic(auto, using(crate::proofs::Words::read_is))]
fn read(l: &Ledger, table: Table, i: usize) -> Row
    requires { i < capacity }
    ensures { result ≡ get_or (places_of (start_of table) l.now) i no_row }
{
    let p = place(table, i);
    Row {
        key: l[p],
        kind: l[p + 1],
        a: l[p + 2],
        b: l[p + 3],
        c: l[p + 4],
    }
}

#[tactic(auto, using(crate::proofs::Words::write_is, crate::proofs::Words::table_end))]
fn write(l: &mut Ledger, table: Table, i: usize, row: Row)
    requires { i < capacity }
    ensures { l.new ≡ tabled (start_of table) (at l.old (start_of table)) (set (places_of (start_of table) l.old) i row) l.old }
{
    let p = place(table, i);
    l[p] = row.key;
    l[p + 1] = row.kind;
    l[p + 2] = row.a;
    l[p + 3] = row.b;
    l[p + 4] = row.c;
}

// The row at k comes to i; those from i on, up to it, move one up.
fn bring(l: &mut Ledger, table: Table, i: usize, k: usize)
    requires { (i ≤ k) × (k < capacity) }
    ensures { l.new ≡ tabled (start_of table) (at l.old (start_of table)) (brought (places_of (start_of table) l.old) i k) l.old }
{
    let row = read(l, table, k);
    l.copy_within(place(table, i)..place(table, k), place(table, i + 1));
    write(l, table, i, row);
}

// Of the first n places, the rows below the key come first. Answers how many they are.
fn divide(l: &mut Ledger, table: Table, n: usize, key: u64) -> usize
    requires { n < capacity }
    ensures count { (result ≡ length (kept (Below key) (take n (places_of (start_of table) l.old)))) × (result ≤ n) }
    ensures words { l.new ≡ tabled (start_of table) (at l.old (start_of table)) (divided key n (places_of (start_of table) l.old)) l.old }
{
    let mut m = 0;
    for i in 0..n {
        if key_at(l, table, i) < key {
            if m < i {
                bring(l, table, m, i);
            }
            m += 1;
        }
    }
    m
}

// The marked rows move to the front. Answers how many they are.
fn pack(l: &mut Ledger, table: Table, marks: Marks) -> usize
    ensures count { (result ≡ length (marked marks (rows_of table l.old))) × (result ≤ length (rows_of table l.old)) }
    ensures words { l.new ≡ tabled (start_of table) (at l.old (start_of table)) (filled (marked marks (rows_of table l.old)) (places_of (start_of table) l.old)) l.old }
{
    let n = used(l, table);
    let mut m = 0;
    for i in 0..n {
        if marks[i] {
            if m < i {
                write(l, table, m, read(l, table, i));
            }
            m += 1;
        }
    }
    m
}

// Zeros in the places from m on, up to n, and the count m where it was n.
fn settle(l: &mut Ledger, table: Table, n: usize, m: usize)
    requires { (n ≤ capacity) × (m ≤ capacity) }
    ensures { l.new ≡ tabled (start_of table) (count_word (at l.old (start_of table)) n m) (take m (places_of (start_of table) l.old) ++ (replicate (n - m) no_row ++ drop (m + (n - m)) (places_of (start_of table) l.old))) l.old }
{
    l[place(table, m)..place(table, n.max(m))].fill(0);
    if n != m {
        l[start_of(table)] = m as u64;
    }
}

// ---- the calls

// No row in use, and zeros.
pub fn empty() -> Ledger
    ensures { result ≡ replicate ledger_words 0 }
{
    [0u64; 3 * TABLE_WORDS]
}

// The row in use at a place of the order.
#[tactic(auto, using(crate::proofs::Words::used_is))]
pub fn row_at(l: &Ledger, table: Table, i: usize) -> Row
    ensures { result ≡ get_or (rows_of table l.now) i no_row }
{
    if i < used(l, table) {
        return read(l, table, i);
    }
    no_row()
}

// What the first row with the key says.
pub fn find(l: &Ledger, table: Table, key: u64) -> Option<Entry>
    ensures { result ≡ find_in key (rows_of table l.now) }
{
    for i in 0..used(l, table) {
        if key_at(l, table, i) == key {
            return Some(kinds::entry_of(read(l, table, i)));
        }
    }
    None
}

// Whether a row for the key would be the 65th.
pub fn is_crowded(l: &Ledger, table: Table, key: u64) -> bool
    ensures { result ≡ crowded key (rows_of table l.now) }
{
    if used(l, table) < ROWS {
        return false;
    }
    find(l, table, key).is_none()
}

// The row in its place; one of its own key gives way. False, and no change, where it would be the 65th. The rows of its key go; the others
// are divided at it, and it comes between them.
pub fn insert(l: &mut Ledger, table: Table, row: Row) -> bool
    ensures answer { result ≡ no (crowded row.key (rows_of table l.old)) }
    ensures words { l.new ≡ laid table (entered row (rows_of table l.old)) l.old }
{
    if is_crowded(l, table, row.key) {
        return false;
    }
    let before = used(l, table);
    let marks = marks_of(l, table, Keep::Other(row.key));
    let n = pack(l, table, marks);
    let m = divide(l, table, n, row.key);
    write(l, table, n, row);
    bring(l, table, m, n);
    settle(l, table, before, n + 1);
    true
}

fn marks_of(l: &Ledger, table: Table, keep: Keep) -> Marks
    ensures { result ≡ marks_by (keeps_row keep) (rows_of table l.now) }
{
    let mut marks = [false; ROWS];
    for i in 0..used(l, table) {
        marks[i] = keeps(keep, read(l, table, i));
    }
    marks
}

// The rows that are kept.
#[tactic(auto, using(crate::proofs::Lists::marks_such))]
pub fn retain(l: &mut Ledger, table: Table, keep: Keep)
    ensures { l.new ≡ laid table (kept keep (rows_of table l.old)) l.old }
{
    let marks = marks_of(l, table, keep);
    retain_marked(l, table, marks);
}

// The rows that are marked.
pub fn retain_marked(l: &mut Ledger, table: Table, marks: Marks)
    ensures { l.new ≡ laid table (marked marks (rows_of table l.old)) l.old }
{
    let n = used(l, table);
    let m = pack(l, table, marks);
    settle(l, table, n, m);
}

// The rows of other keys.
pub fn remove(l: &mut Ledger, table: Table, key: u64)
    ensures { l.new ≡ laid table (without key (rows_of table l.old)) l.old }
{
    retain(l, table, Keep::Other(key));
}

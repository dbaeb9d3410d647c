//! The parity of a segment, gathered sector by sector in a register of three bytes a column.
#![tactic(auto)]

ghost use Rattle.std.specs.Prelude.{◌≡◌, ℕ, ◌+◌, ◌<◌, ◌≤◌, List, [], ◌∷◌, ◌++◌, length, All, slice_index};
ghost use Rattle.cartridge_spec.specs.Code.{product, parity_sectors, IsCodeBlock};
ghost use Rattle.qic_base.specs.Cartridge.{IsSector};
ghost use Rattle.segment_parity.specs.Register.{pushed, Holds, Shifted, AreParity, HasColumns};

use gf256_qic::{over_x, times_x};
pub use putting::put_parity;
use qic_base::{SECTOR, Sector};

mod putting;

/// The columns that `parity_of` takes at a time, few enough for the processor's registers.
const BLOCK: usize = 128;

/// The parity of the data sectors of a segment so far, 0 to 29 of them (QIC-80-MC).
#[derive(Drop)]
pub struct Parity {
    register: [Sector; 3],
    count: u8,
}

impl Parity {
    /// The parity of no sector yet.
    pub fn new() -> Parity
        ensures count { pushed result ≡ 0 }
        ensures empty { Holds result [] }
    {
        Parity {
            register: [[0; SECTOR]; 3],
            count: 0,
        }
    }

    /// Takes the next data sector, in ascending order of index.
    pub fn push(&mut self, sector: &Sector)
        requires { pushed self.old < 29 }
        ensures count { pushed self.new ≡ pushed self.old + 1 }
        ensures sectors { (ss : List (List ℕ)) → Holds self.old ss →
            Holds self.new (ss ++ sector.now ∷ []) }
    {
        shift_in(&mut self.register, sector);
        self.count += 1;
    }

    /// How many sectors were pushed.
    pub fn count(&self) -> u8
        ensures { result ≡ pushed self.now }
    {
        self.count
    }

    /// The three parity sectors of what was pushed so far, in ascending order of index.
    pub fn so_far(&self) -> &[Sector; 3]
        requires { 0 < pushed self.now }
        ensures parity { (ss : List (List ℕ)) → Holds self.now ss →
            result.now ≡ parity_sectors ss }
        ensures codewords { (ss : List (List ℕ)) → Holds self.now ss →
            IsCodeBlock (ss ++ result.now) }
        ensures only { (ss ps : List (List ℕ)) → Holds self.now ss →
            length ps ≡ 3 → IsCodeBlock (ss ++ ps) → ps ≡ result.now }
    {
        &self.register
    }

    /// The three parity sectors, in ascending order of index.
    pub fn finish(self) -> [Sector; 3]
        requires { 0 < pushed self }
        ensures parity { (ss : List (List ℕ)) → Holds self ss → result ≡ parity_sectors ss }
        ensures codewords { (ss : List (List ℕ)) → Holds self ss → IsCodeBlock (ss ++ result) }
        ensures only { (ss ps : List (List ℕ)) → Holds self ss →
            length ps ≡ 3 → IsCodeBlock (ss ++ ps) → ps ≡ result }
    {
        self.register
    }
}

/// The parity of 1 to 29 data sectors, which follows them in a segment (QIC-80-MC).
pub fn parity_of(sectors: &[Sector]) -> [Sector; 3]
    requires least { 1 ≤ length sectors.now }
    requires most { length sectors.now ≤ 29 }
    ensures parity { result ≡ parity_sectors sectors.now }
    ensures block { IsCodeBlock (sectors.now ++ result) }
{
    let mut rows = [[0; SECTOR]; 3];
    for block in 0..SECTOR / BLOCK {
        put_columns(&mut rows, sectors, BLOCK * block);
    }
    rows
}

/// Puts the parity of a block of columns, from `start` on, into the three parity sectors.
fn put_columns(rows: &mut [Sector; 3], sectors: &[Sector], start: usize)
    requires { start + 128 ≤ 1024 }
    ensures sectors { All IsSector sectors.now }
    ensures columns { HasColumns rows.old sectors.now start →
        HasColumns rows.new sectors.now (start + 128) }
{
    let mut high = [0; BLOCK];
    let mut middle = [0; BLOCK];
    let mut low = [0; BLOCK];
    for sector in sectors {
        shift_block(&mut high, &mut middle, &mut low, sector, start);
    }
    put(&mut rows[0], &high, start);
    put(&mut rows[1], &middle, start);
    put(&mut rows[2], &low, start);
}

/// Puts a block into its place in a row.
fn put(row: &mut Sector, block: &[u8; BLOCK], start: usize)
    requires { start + 128 ≤ 1024 }
    ensures size { length row.new ≡ 1024 }
    ensures before { (j : ℕ) → j < start → slice_index row.new j ≡ slice_index row.old j }
    ensures block { (j : ℕ) → j < 128 → slice_index row.new (start + j) ≡ slice_index block.now j }
{
    row[start..start + BLOCK].copy_from_slice(block);
}

/// As `shift_in`, on a block of columns alone, from `start` on.
fn shift_block(
    high: &mut [u8; BLOCK],
    middle: &mut [u8; BLOCK],
    low: &mut [u8; BLOCK],
    sector: &Sector,
    start: usize,
)
    requires { start + 128 ≤ 1024 }
    ensures sector { IsSector sector.now }
    ensures columns { (ss : List (List ℕ)) → All IsSector ss →
        AreParity high.old middle.old low.old ss start 128 →
        AreParity high.new middle.new low.new (ss ++ sector.now ∷ []) start 128 }
{
    for j in 0..BLOCK {
        let feedback = high[j] ^ sector[start + j];
        let multiple = times_0xc0(feedback);
        high[j] = middle[j] ^ multiple;
        middle[j] = low[j] ^ multiple;
        low[j] = feedback;
    }
}

/// Shifts each column of the register by one, and adds the feedback's multiples.
fn shift_in(register: &mut [Sector; 3], sector: &Sector)
    ensures columns { All IsSector register.old →
        Shifted register.old sector.now register.new 1024 }
    ensures rows { All IsSector register.old → All IsSector register.new }
{
    for j in 0..SECTOR {
        let feedback = register[0][j] ^ sector[j];
        let multiple = times_0xc0(feedback);
        register[0][j] = register[1][j] ^ multiple;
        register[1][j] = register[2][j] ^ multiple;
        register[2][j] = feedback;
    }
}

/// The product with 0xC0, which is the sum of 0x02, 0x01 and 0xC3.
fn times_0xc0(a: u8) -> u8
    ensures { result ≡ product a 0xC0 }
{
    times_x(a) ^ a ^ over_x(a)
}

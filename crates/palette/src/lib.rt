// bc4.rs: the two palettes.
#![tactic(auto)]

ghost use Rattle.std.specs.Prelude.{◌≡◌, ℕ, ◌+◌, ◌*◌, ◌<◌, get_or, Float};
ghost use Rattle.index_list.specs.Indexes.{filled_to};
ghost use Rattle.palette.specs.declared.Kind.{Kind as KindOf};
ghost use Rattle.palette.specs.declared.Closest.{Closest as ClosestOf};
ghost use Rattle.palette.specs.Palettes.{values_of};
ghost use Rattle.palette.specs.Closest.{closest_of, block_closest};
ghost use Rattle.palette.specs.PaletteError.{palette_error};
ghost use Rattle.palette.specs.Rows.{first_row_error};

pub mod error;
pub mod inter4;
pub mod inter6;

use index_list::IndexList;

// The two palettes. No code asks for it: it names the palette in the definitions.
#[derive(Clone, Copy)]
pub enum Kind {
    Six,
    Four,
}

// The index of the value that is closest, that value, and how far it is.
#[derive(Clone, Copy)]
pub struct Closest {
    pub index: u8,
    pub value: f32,
    pub error: f32,
}

// The indexes of a block and its total error.
#[derive(Clone, Copy)]
pub struct Indexed {
    pub indexes: IndexList,
    pub error: f32,
}

// Four indexes, three bits each.
fn four(a: u32, b: u32, c: u32, d: u32) -> u32
    requires { (a < 8) × (b < 8) × (c < 8) × (d < 8) }
    ensures { (result ≡ a + 8 * b + 64 * c + 512 * d) × (result < 4096) }
{
    a + 8 * b + 64 * c + 512 * d
}

// The list of four rows of indexes, by halves that u32 holds.
fn of_rows(r0: u32, r1: u32, r2: u32, r3: u32) -> IndexList
    requires { (r0 < 4096) × (r1 < 4096) × (r2 < 4096) × (r3 < 4096) }
    ensures { result.data ≡ r0 + 4096 * r1 + 16777216 * r2 + 68719476736 * r3 }
{
    let low = r0 + 4096 * r1;
    let high = r2 + 4096 * r3;
    IndexList {
        data: (low as u64) + ((high as u64) << 24),
    }
}

// The indexes of row i.
#[derive(Clone, Copy)]
struct RowIndexes {
    x: u32,
    y: u32,
    z: u32,
    w: u32,
}

fn row_indexes(k: &[u32; 16], i: usize) -> RowIndexes
    requires { i < 4 }
    ensures { result ≡ record { x = get_or k.now (4 * i) 0; y = get_or k.now (4 * i + 1) 0; z = get_or k.now (4 * i + 2) 0; w = get_or k.now (4 * i + 3) 0 } }
{
    RowIndexes {
        x: k[4 * i],
        y: k[4 * i + 1],
        z: k[4 * i + 2],
        w: k[4 * i + 3],
    }
}

fn row_code(k: &[u32; 16], i: usize) -> u32
    requires { (i < 4) × ((j : ℕ) → j < 16 → get_or k.now j 0 < 8) }
    ensures { (result ≡ get_or k.now (4 * i) 0 + 8 * get_or k.now (4 * i + 1) 0 + 64 * get_or k.now (4 * i + 2) 0 + 512 * get_or k.now (4 * i + 3) 0) × (result < 4096) }
{
    let n = row_indexes(k, i);
    four(n.x, n.y, n.z, n.w)
}

#[tactic(auto, unfolding(index_list::specs::Indexes::filled_to))]
fn indexes(k: &[u32; 16]) -> IndexList
    requires { (i : ℕ) → i < 16 → get_or k.now i 0 < 8 }
    ensures { result.data ≡ filled_to (λ i. get_or k.now i 0) 16 }
{
    of_rows(
        row_code(k, 0),
        row_code(k, 1),
        row_code(k, 2),
        row_code(k, 3),
    )
}

// What the Rust's `Palette` asks of a palette. `kind` is the palette in the definitions.
pub trait Palette: Copy {
    ghost kind: { KindOf };

    // Its answer for a sample.
    ghost rule: { Self → Float → ClosestOf };

    fn from_ends(c0: f32, c1: f32) -> Self
        ensures { rule result ≡ closest_of kind c0 c1 };

    fn closest(self, pixel: f32) -> Closest
        ensures { result ≡ rule self pixel };

    fn block_closest(self, b: &[f32; 16]) -> Indexed
        ensures { result ≡ block_closest (rule self) b.now };

    // The eight that the error looks at, in its order.
    fn values(c0: f32, c1: f32) -> [f32; 8]
        ensures { result ≡ values_of kind c0 c1 };
}

// What the Rust's closure over `P` works out for two ends.
pub fn palette_error<P: Palette>(b: &[f32; 16], c0: f32, c1: f32) -> f32
    ensures { result ≡ palette_error P.kind b.now c0 c1 }
{
    error::sum(P::values(c0, c1), b)
}

// A floor of it: what the first row adds.
pub fn first_row_error<P: Palette>(b: &[f32; 16], c0: f32, c1: f32) -> f32
    ensures { result ≡ first_row_error P.kind b.now c0 c1 }
{
    error::first_row_sum(P::values(c0, c1), b)
}

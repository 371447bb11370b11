// For comparing with the Rust text function by function: each export is one call of an inner function. No part of what users link.
// Results of several numbers go through references: a returned struct would follow the x86-64 calling convention even where the
// module is compiled for another machine. What an inner function requires is tested first, and the answer is a fixed one where it fails.
#![tactic(auto)]

ghost use Rattle.std.specs.Prelude.{◌%◌, ◌≡◌, true, false, get_or};
ghost use Rattle.floats.specs.Helpers.{abs_of, min_of, max_of, lane_min, lane_max, clamp_of, entry_clamp, trunc_of, byte_of, byte_up_to7};
ghost use Rattle.values.specs.Values.{value_of, norm_of, signed_of};
ghost use Rattle.index_list.specs.Indexes.{filled_to};
ghost use Rattle.block.specs.Samples.{per_pixel};
ghost use Rattle.block.specs.Block.{entered, mean};
ghost use Rattle.palette.specs.declared.Kind.TheVariants.{Six, Four};
ghost use Rattle.palette.specs.PaletteError.{palette_error};
ghost use Rattle.compress.specs.Sorted.{placed};
ghost use Rattle.compress.specs.Network.{InOrder};

pub mod public_calls;

use end_points::EndPoints;
use floats::Pair;
use index_list::IndexList;
use palette::inter4::Inter4Palette;
use palette::inter6::Inter6Palette;
use palette::{Closest, Indexed, Palette};

#[unsafe(no_mangle)]
pub extern "C" fn inner_abs(x: f32) -> f32
    ensures { result ≡ abs_of x }
{
    floats::abs(x)
}

#[unsafe(no_mangle)]
pub extern "C" fn inner_min(a: f32, b: f32) -> f32
    ensures { result ≡ min_of a b }
{
    floats::min(a, b)
}

#[unsafe(no_mangle)]
pub extern "C" fn inner_max(a: f32, b: f32) -> f32
    ensures { result ≡ max_of a b }
{
    floats::max(a, b)
}

#[unsafe(no_mangle)]
pub extern "C" fn inner_lane_min(a: f32, b: f32) -> f32
    ensures { result ≡ lane_min a b }
{
    floats::lane_min(a, b)
}

#[unsafe(no_mangle)]
pub extern "C" fn inner_lane_max(a: f32, b: f32) -> f32
    ensures { result ≡ lane_max a b }
{
    floats::lane_max(a, b)
}

#[unsafe(no_mangle)]
pub extern "C" fn inner_clamp(x: f32) -> f32
    ensures { result ≡ clamp_of x }
{
    floats::clamp(x)
}

#[unsafe(no_mangle)]
pub extern "C" fn inner_entry_clamp(x: f32) -> f32
    ensures { result ≡ entry_clamp x }
{
    floats::entry_clamp(x)
}

#[unsafe(no_mangle)]
pub extern "C" fn inner_trunc(x: f32) -> f32
    ensures { result ≡ trunc_of x }
{
    floats::trunc(x)
}

#[unsafe(no_mangle)]
pub extern "C" fn inner_byte_of(x: f32) -> u8
    ensures { result ≡ byte_of x }
{
    floats::byte_of(x)
}

#[unsafe(no_mangle)]
pub extern "C" fn inner_byte_up_to_7(x: f32) -> u32
    ensures { result ≡ byte_up_to7 x }
{
    floats::byte_up_to_7(x) as u32
}

#[unsafe(no_mangle)]
pub extern "C" fn inner_n8_f32(x: u8) -> f32
    ensures { result ≡ value_of x false }
{
    values::n8::f32(x)
}

#[unsafe(no_mangle)]
pub extern "C" fn inner_norm(x: u8) -> u8
    ensures { result ≡ norm_of x }
{
    values::s8::norm(x)
}

#[unsafe(no_mangle)]
pub extern "C" fn inner_uf32(x: u8) -> f32
    ensures { result ≡ value_of x true }
{
    values::s8::uf32(x)
}

#[unsafe(no_mangle)]
pub extern "C" fn inner_from_norm(x: u8) -> u8 {
    if x > 254 {
        return 0;
    }
    values::s8::from_norm(x)
}

#[unsafe(no_mangle)]
pub extern "C" fn inner_as_i8(x: u8) -> i8
    ensures { result ≡ signed_of x }
{
    values::s8::as_i8(x)
}

fn give(e: EndPoints, bytes: &mut [u8; 2], values: &mut [f32; 2]) {
    *bytes = [e.c0, e.c1];
    *values = [e.c0_f, e.c1_f];
}

#[unsafe(no_mangle)]
pub extern "C" fn inner_new_inter6(
    e0: f32,
    e1: f32,
    snorm: bool,
    bytes: &mut [u8; 2],
    values: &mut [f32; 2],
) {
    give(EndPoints::new_inter6(e0, e1, snorm), bytes, values)
}

#[unsafe(no_mangle)]
pub extern "C" fn inner_new_inter4(
    e0: f32,
    e1: f32,
    snorm: bool,
    bytes: &mut [u8; 2],
    values: &mut [f32; 2],
) {
    give(EndPoints::new_inter4(e0, e1, snorm), bytes, values)
}

#[unsafe(no_mangle)]
pub extern "C" fn inner_quantize(e0: f32, e1: f32, snorm: bool, values: &mut [f32; 2]) {
    let q = EndPoints::quantize(e0, e1, snorm);
    *values = [q.0, q.1];
}

// Whether the value is in 0..1; nothing is written where it is not.
#[unsafe(no_mangle)]
pub extern "C" fn inner_new_closest(
    value: f32,
    snorm: bool,
    bytes: &mut [u8; 2],
    values: &mut [f32; 2],
) -> bool {
    if 0.0 <= value {
        if value <= 1.0 {
            give(EndPoints::new_closest(value, snorm), bytes, values);
            return true;
        }
    }
    false
}

#[unsafe(no_mangle)]
pub extern "C" fn inner_new_inter6_unorm(
    c0: u8,
    c1: u8,
    bytes: &mut [u8; 2],
    values: &mut [f32; 2],
) {
    give(EndPoints::new_inter6_unorm(c0, c1), bytes, values)
}

#[unsafe(no_mangle)]
pub extern "C" fn inner_with_indexes(c0: u8, c1: u8, indexes: u64, out: &mut [u8; 8]) {
    let e = EndPoints::new_inter6_unorm(c0, c1);
    *out = index_list::bytes(e.with_indexes(IndexList { data: indexes }));
}

#[unsafe(no_mangle)]
pub extern "C" fn inner_new_all(value: u8) -> u64 {
    if value >= 8 {
        return 0;
    }
    IndexList::new_all(value).data
}

#[unsafe(no_mangle)]
pub extern "C" fn inner_get(indexes: u64, index: usize) -> u8 {
    if index >= 16 {
        return 255;
    }
    IndexList { data: indexes }.get(index)
}

// All sixteen set in order, each to its number % 8.
#[unsafe(no_mangle)]
pub extern "C" fn inner_set(indexes: &[u8; 16]) -> u64
    ensures { result ≡ filled_to (λ k. get_or indexes.now k 0 % 8) 16 }
{
    let mut list = IndexList::new_empty();
    for (i, index) in indexes.iter().enumerate() {
        list = list.set(i, index % 8);
    }
    list.data
}

// ---- block

fn give_pair(p: Pair, out: &mut [f32; 2]) {
    *out = [p.0, p.1];
}

#[unsafe(no_mangle)]
pub extern "C" fn inner_from_raw(samples: &[f32; 16], out: &mut [f32; 16])
    ensures { out.new ≡ entered samples.now }
{
    *out = block::from_raw(samples);
}

#[unsafe(no_mangle)]
pub extern "C" fn inner_min_max(b: &[f32; 16], out: &mut [f32; 2]) {
    give_pair(block::min_max(b), out)
}

#[unsafe(no_mangle)]
pub extern "C" fn inner_min_max_with_threshold(b: &[f32; 16], threshold: f32, out: &mut [f32; 2]) {
    give_pair(block::min_max_with_threshold(b, threshold), out)
}

#[unsafe(no_mangle)]
pub extern "C" fn inner_mean(b: &[f32; 16]) -> f32
    ensures { result ≡ mean b.now }
{
    block::mean(b)
}

// ---- compress

#[unsafe(no_mangle)]
pub extern "C" fn inner_sorted(b: &[f32; 16], out: &mut [f32; 16])
    ensures { InOrder b.now out.new }
{
    *out = compress::network::sorted(b);
}

// All sixteen, where the encoder asks for four at most.
#[unsafe(no_mangle)]
pub extern "C" fn inner_places(b: &[f32; 16], out: &mut [f32; 16])
    ensures { out.new ≡ per_pixel (placed b.now) }
{
    let s = compress::network::sorted(b);
    *out = std::array::from_fn(|i| compress::sorted::placed(b, &s, i as u32));
}

// ---- palette

#[unsafe(no_mangle)]
pub extern "C" fn inner_palette_error6(b: &[f32; 16], c0: f32, c1: f32) -> f32
    ensures { result ≡ palette_error Six b.now c0 c1 }
{
    palette::palette_error::<Inter6Palette>(b, c0, c1)
}

#[unsafe(no_mangle)]
pub extern "C" fn inner_palette_error4(b: &[f32; 16], c0: f32, c1: f32) -> f32
    ensures { result ≡ palette_error Four b.now c0 c1 }
{
    palette::palette_error::<Inter4Palette>(b, c0, c1)
}

// The index; its value and the error in `out`.
fn give_closest(c: Closest, out: &mut [f32; 2]) -> u8 {
    *out = [c.value, c.error];
    c.index
}

#[unsafe(no_mangle)]
pub extern "C" fn inner_closest6(c0: f32, c1: f32, pixel: f32, out: &mut [f32; 2]) -> u8 {
    give_closest(Inter6Palette::new(c0, c1).closest(pixel), out)
}

#[unsafe(no_mangle)]
pub extern "C" fn inner_closest4(c0: f32, c1: f32, pixel: f32, out: &mut [f32; 2]) -> u8 {
    give_closest(Inter4Palette::new(c0, c1).closest(pixel), out)
}

#[unsafe(no_mangle)]
pub extern "C" fn inner_weights(c0: f32, c1: f32, b: &[f32; 16], out: &mut [f32; 16]) {
    *out = Inter6Palette::new(c0, c1).block_closest_weights(b);
}

// The error; the indexes in `data`.
fn give_indexed(x: Indexed, data: &mut u64) -> f32 {
    *data = x.indexes.data;
    x.error
}

#[unsafe(no_mangle)]
pub extern "C" fn inner_block_closest6(c0: f32, c1: f32, b: &[f32; 16], data: &mut u64) -> f32 {
    give_indexed(Inter6Palette::new(c0, c1).block_closest(b), data)
}

#[unsafe(no_mangle)]
pub extern "C" fn inner_block_closest4(c0: f32, c1: f32, b: &[f32; 16], data: &mut u64) -> f32 {
    give_indexed(Inter4Palette::new(c0, c1).block_closest(b), data)
}

// ---- bcn_util

#[unsafe(no_mangle)]
pub extern "C" fn inner_least_squares(colors: &[f32; 16], w: &[f32; 16], out: &mut [f32; 2]) {
    give_pair(bcn_util::least_squares::least_squares(colors, w), out)
}

#[unsafe(no_mangle)]
pub extern "C" fn inner_dither6(c0: f32, c1: f32, b: &[f32; 16], data: &mut u64) -> f32 {
    give_indexed(bcn_util::dither::dither::<Inter6Palette>(b, c0, c1), data)
}

#[unsafe(no_mangle)]
pub extern "C" fn inner_dither4(c0: f32, c1: f32, b: &[f32; 16], data: &mut u64) -> f32 {
    give_indexed(bcn_util::dither::dither::<Inter4Palette>(b, c0, c1), data)
}

// Nothing happens where the block has no pixel i.
#[unsafe(no_mangle)]
pub extern "C" fn inner_diffuse(m: &mut [f32; 16], i: usize, error: f32) {
    if i < 16 {
        bcn_util::dither::diffuse(m, i, error);
    }
}

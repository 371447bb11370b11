// What the block calls make of values: two blocks of samples, and the two halves of a block that is decoded, scored, and held at a resend. A half is a number,
// byte 0 lowest.
use crate::{answers, decoding};
use bc4::word::Word;
use bc5::{Halves, Options};
use cases::given;
use cases::show::{Hex, format, if_set};
use given::{OPTIONS, Sixteen};
use std::io;

// All 0, by index 0 and by index 6 of the four-value mode: an equal error keeps the held half.
const ZERO: u64 = 0;

const ALSO_ZERO: u64 = 0xdb6d_b6db_6db6_0000;

const SIGNED: Options = Options {
    snorm: true,
    ..OPTIONS
};

fn valued(
    rt: &impl Print,
    first: Sixteen,
    second: Sixteen,
    held: Halves,
    options: Options,
) -> io::Result<()> {
    let held = bc5::bytes(held);
    print!(rt;
        "{first} beside {second}, {}, {}{}",
        Hex(&held),
        format(options.snorm),
        if_set(options.dither, ", dither"),
    )?;
    decoding::answer(rt, &held, options.snorm)?;
    let word = Word {
        options,
        malformed: false,
    };
    answers::told(rt, &given::block(first), &given::block(second), &held, word)
}

// Of the slopes, in both formats: what the call encodes; what a search over the ends finds, which is better; and a worse one.
const SLOPES: [(u64, u64); 3] = [
    (0x4c24_e5ce_5db9_0056, 0x6c24_e5ce_5db9_81d7),
    (0x4c04_e5ce_5dc9_0751, 0x4c04_e5ce_5dc9_88d2),
    (0x8181, 0x8181),
];

// The same of the later ones.
const LATER: [(u64, u64); 3] = [
    (0x8139_7797_7973_afee, 0x8139_7797_7973_2f6e),
    (0x8139_7797_7973_abf1, 0x8139_7797_7973_2c71),
    (0x8181, 0x8181),
];

fn slopes(rt: &impl Print, first: u64, second: u64, o: Options) -> io::Result<()> {
    let held = Halves { first, second };
    valued(rt, Sixteen::Slopes, Sixteen::LaterSlopes, held, o)
}

// Each choice for the first half with each for the second, in both formats. Where one half is worse and the other better, a choice by the sum of both errors
// would replace both.
pub fn each_half(rt: &impl Print) -> io::Result<()> {
    for (later, signed_later) in LATER {
        for (half, signed_half) in SLOPES {
            slopes(rt, half, later, OPTIONS)?;
            slopes(rt, signed_half, signed_later, SIGNED)?;
        }
    }
    Ok(())
}

// What the call encodes, with dither, and with the halves exchanged: each is held against its own channel.
fn fresh(rt: &impl Print) -> io::Result<()> {
    let (half, signed_half) = SLOPES[0];
    let (later, signed_later) = LATER[0];
    let dither = Options {
        dither: true,
        ..OPTIONS
    };
    let signed_dither = Options {
        dither: true,
        ..SIGNED
    };
    slopes(rt, half, later, dither)?;
    slopes(rt, signed_half, signed_later, signed_dither)?;
    slopes(rt, later, half, OPTIONS)
}

// The first line is the worked value: eight 00, then ff and seven 00. In the one with 81 80, -127 is above -128, so that this half has six values, the other four.
const CASES: [(Sixteen, Sixteen, u64, u64, Options); 7] = [
    (Sixteen::Zeros, Sixteen::Ones, ZERO, ALSO_ZERO, OPTIONS),
    (Sixteen::Ones, Sixteen::Zeros, ALSO_ZERO, ALSO_ZERO, OPTIONS),
    (Sixteen::Zeros, Sixteen::Ones, ZERO, ALSO_ZERO, SIGNED),
    (
        Sixteen::MinusInfinite,
        Sixteen::Infinite,
        ZERO,
        ZERO,
        OPTIONS,
    ),
    (
        Sixteen::ZeroAndOne,
        Sixteen::BothInfinite,
        0xfac6_88fa_c688_00ff,
        0xfac6_88fa_c688_ff00,
        OPTIONS,
    ),
    (
        Sixteen::ZeroAndOne,
        Sixteen::BothInfinite,
        0xfac6_88fa_c688_817f,
        0xfac6_88fa_c688_7f81,
        SIGNED,
    ),
    (
        Sixteen::BothOutside,
        Sixteen::ZeroAndOne,
        0xfac6_88fa_c688_8081,
        0xfac6_88fa_c688_8180,
        SIGNED,
    ),
];

pub fn cases(rt: &impl Print) -> io::Result<()> {
    for (a, b, first, second, o) in CASES {
        valued(rt, a, b, Halves { first, second }, o)?;
    }
    fresh(rt)
}

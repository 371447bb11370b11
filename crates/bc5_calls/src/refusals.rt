// The calls that take samples, all of them given the same: refusals 2, 3, 5 and 7, and 8 last, since the word is a malformed one. Of each channel a case says
// how many samples it has, and where they are NaN.
use crate::answers;
use bc4::Options;
use bc4::word::Word;
use cases::given;
use cases::show::if_set;
use given::{Lent, OPTIONS};
use refusal::Channel;
use std::io;

fn line(
    rt: &impl Print,
    first: Lent<'_>,
    second: Lent<'_>,
    length: usize,
    dither: bool,
) -> io::Result<()> {
    let a: [f32; 17] = given::samples(Channel::First, first.nans);
    let b: [f32; 17] = given::samples(Channel::Second, second.nans);
    let held: [u8; 17] = given::bytes();
    print!(rt;
        "{first} beside {second}, {length} bytes{}",
        if_set(dither, ", dither")
    )?;
    answers::told(
        rt,
        given::first(&a, first.count),
        given::first(&b, second.count),
        given::first(&held, length),
        Word {
            options: Options { dither, ..OPTIONS },
            malformed: true,
        },
    )
}

pub fn cases(rt: &impl Print) -> io::Result<()> {
    for (first, second, length) in [
        (0, 16, 16),
        (17, 16, 16),
        (16, 0, 16),
        (16, 15, 16),
        (0, 0, 0),
        (16, 16, 0),
        (16, 16, 8),
        (16, 16, 17),
    ] {
        let first = Lent::new(first, &[]);
        let second = Lent::new(second, &[]);
        line(rt, first, second, length, false)?;
    }
    Ok(())
}

// Each place of a NaN with each. Behind an earlier one the last of sixteen samples is NaN too: the lowest index is told. 16 is past the end of what is lent.
pub fn each_nan(rt: &impl Print) -> io::Result<()> {
    let places: [&[usize]; 5] = [&[], &[0, 15], &[14, 15], &[15], &[16]];
    for second in places {
        for first in places {
            line(rt, Lent::new(16, first), Lent::new(16, second), 16, false)?;
        }
    }
    Ok(())
}

// Every set of faults but NaN.
fn each_fault(rt: &impl Print, first_nans: &[usize], second_nans: &[usize]) -> io::Result<()> {
    for dither in [false, true] {
        for length in [16, 15] {
            for second in [16, 17] {
                for first in [16, 15] {
                    let first = Lent::new(first, first_nans);
                    let second = Lent::new(second, second_nans);
                    line(rt, first, second, length, dither)?;
                }
            }
        }
    }
    Ok(())
}

pub fn each_set(rt: &impl Print) -> io::Result<()> {
    each_fault(rt, &[], &[])?;
    each_fault(rt, &[14, 15], &[])?;
    each_fault(rt, &[], &[0, 15])?;
    each_fault(rt, &[14, 15], &[0, 15])
}

// Read: refusals 11 to 14, 1, 9, 10 and 15. A line shows size, format and where the body starts, or the refusal with its side or field; what
// `read_refusal` says where it refuses; and the body. The files are made here, not by the writer.
use cases::show::{Answer, Hex, IfRefused};
use cases::{given, show};
use dds::Picture;
use std::fmt::Display;
use std::{fmt, io};

const ATI1: u32 = 0x31495441;

// A field of a file: where it starts, and what it is set to.
type Field = (usize, u32);

// What a file of 8 by 4 has in every field that is named.
const FIELDS: [Field; 8] = [
    (0, 0x20534444),
    (4, 124),
    (12, 4),
    (16, 8),
    (24, 0),
    (28, 1),
    (84, 0x55344342),
    (112, 0x200),
];

// What it has besides with an extension.
const EXTENSION: [Field; 3] = [(84, 0x30315844), (128, 80), (140, 1)];

fn set(file: &mut [u8; 165], fields: &[Field]) {
    for (at, x) in fields {
        for (byte, new) in file.iter_mut().skip(*at).zip(x.to_le_bytes()) {
            *byte = new;
        }
    }
}

// A file, right in every field that is named, and any bytes elsewhere; how many of its bytes are read.
#[derive(Clone, Copy)]
struct Sort {
    extension: bool,
    length: usize,
}

const PLAIN: Sort = Sort {
    extension: false,
    length: 144,
};

const EXTENDED: Sort = Sort {
    extension: true,
    length: 164,
};

impl Sort {
    fn made(self) -> [u8; 165] {
        let mut file = given::bytes();
        set(&mut file, &FIELDS);
        if self.extension {
            set(&mut file, &EXTENSION);
        }
        file
    }
}

impl Display for Sort {
    fn fmt<W: fmt::Write>(&self, f: &mut fmt::Formatter<W>) -> fmt::Result {
        let with = show::if_set(self.extension, " with DX10");
        write!(f, "read {} bytes{with}", self.length)
    }
}

// What a file holds.
#[derive(Clone, Copy)]
pub struct Held(Picture);

impl Display for Held {
    fn fmt<W: fmt::Write>(&self, f: &mut fmt::Formatter<W>) -> fmt::Result {
        let p = self.0;
        let format = show::format(p.snorm);
        write!(f, "{} by {}, {format}, from {}", p.width, p.height, p.start)
    }
}

pub fn found(file: &[u8]) -> Answer<Held> {
    Answer(dds::read(file).map(Held))
}

// The fields that a case has otherwise.
#[derive(Clone, Copy)]
struct Changes<'a>(&'a [Field]);

impl Display for Changes<'_> {
    fn fmt<W: fmt::Write>(&self, f: &mut fmt::Formatter<W>) -> fmt::Result {
        for (at, x) in self.0 {
            write!(f, ", {at} is {x}")?;
        }
        Ok(())
    }
}

fn changed(rt: &impl Print, sort: Sort, changes: &[Field]) -> io::Result<()> {
    let mut made = sort.made();
    set(&mut made, changes);
    let file = given::first(&made, sort.length);
    println!(rt;
        "{sort}{}: {},{} [{}]",
        Changes(changes),
        found(file),
        IfRefused(dds::read_refusal(file)),
        Hex(dds::body(file)),
    )
}

fn lengths(rt: &impl Print) -> io::Result<()> {
    for length in [0, 127, 128, 143, 144, 145, 148] {
        changed(rt, Sort { length, ..PLAIN }, &[])?;
    }
    for length in [0, 127, 128, 144, 147, 148, 163, 164, 165] {
        changed(rt, Sort { length, ..EXTENDED }, &[])?;
    }
    Ok(())
}

// One field of either.
fn each(rt: &impl Print, plain: &[Field], extended: &[Field]) -> io::Result<()> {
    for change in plain {
        changed(rt, PLAIN, &[*change])?;
    }
    for change in extended {
        changed(rt, EXTENDED, &[*change])?;
    }
    Ok(())
}

fn marks(rt: &impl Print) -> io::Result<()> {
    let changes = [
        (0, 0x20534445),
        (0, 0x44445320),
        (4, 123),
        (4, 125),
        (4, 0x017c),
    ];
    each(rt, &changes, &[])
}

fn formats(rt: &impl Print) -> io::Result<()> {
    let plain = [(84, 0x53344342), (84, ATI1), (84, 0x55344363), (84, 0)];
    let extended = [(128, 79), (128, 81), (128, 82), (128, 0x0150)];
    each(rt, &plain, &extended)
}

fn pictures(rt: &impl Print) -> io::Result<()> {
    let plain = [
        (28, 0),
        (28, 2),
        (28, 0x0101),
        (24, 1),
        (24, 2),
        (24, 0xffff_ffff),
    ];
    let extended = [(140, 0), (140, 2), (140, 0x0101)];
    each(rt, &plain, &extended)
}

fn faces(rt: &impl Print) -> io::Result<()> {
    let changes = [
        (112, 0x03ff),
        (112, 0x0400),
        (112, 0x0800),
        (112, 0x1000),
        (112, 0x2000),
        (112, 0x4000),
        (112, 0x8000),
        (112, 0xffff_03ff),
    ];
    each(rt, &changes, &[])
}

fn sides(rt: &impl Print) -> io::Result<()> {
    let changes = [
        (16, 0),
        (16, 6),
        (16, 1024),
        (16, 1028),
        (16, 65544),
        (16, 0xffff_fffc),
        (16, 4),
        (12, 0),
        (12, 6),
        (12, 1024),
        (12, 1028),
        (12, 65540),
        (12, 0xffff_fffc),
        (12, 8),
    ];
    each(rt, &changes, &[])
}

// The order of the numbers, and inside a number that of its fields.
fn in_order(rt: &impl Print) -> io::Result<()> {
    changed(
        rt,
        Sort {
            length: 127,
            ..PLAIN
        },
        &[(0, 0)],
    )?;
    changed(
        rt,
        Sort {
            length: 147,
            ..EXTENDED
        },
        &[(0, 0), (4, 0)],
    )?;
    for both in [
        [(0, 0), (4, 0)],
        [(4, 0), (84, ATI1)],
        [(4, 0), (128, 79)],
        [(84, ATI1), (28, 2)],
        [(128, 79), (28, 2)],
        [(28, 2), (24, 2)],
        [(24, 2), (112, 0x400)],
        [(112, 0x400), (140, 0)],
        [(140, 0), (16, 0)],
        [(140, 0), (16, 1028)],
        [(140, 0), (16, 6)],
        [(16, 6), (12, 6)],
    ] {
        changed(rt, EXTENDED, &both)?;
    }
    changed(
        rt,
        Sort {
            length: 163,
            ..EXTENDED
        },
        &[(12, 6)],
    )?;
    // one that another file would have: the fields of an extension that is not there
    changed(rt, PLAIN, &[(128, 79), (140, 0)])
}

// The number that a file is refused with, 0 for none, once byte k of it is another.
fn with_another_byte(sort: Sort, k: usize) -> u8 {
    let mut file = sort.made();
    if let Some(byte) = file.get_mut(k) {
        *byte = 255 - *byte;
    }
    match dds::read_refusal(given::first(&file, sort.length)) {
        Ok(()) => 0,
        Err(q) => refusal::number(q),
    }
}

fn each_byte(rt: &impl Print, sort: Sort) -> io::Result<()> {
    print!(rt; "{sort}, each byte changed alone:")?;
    // By place: that byte is changed.
    for k in 0..sort.length {
        print!(rt; " {}", with_another_byte(sort, k))?;
    }
    println!(rt)
}

pub fn cases(rt: &impl Print) -> io::Result<()> {
    lengths(rt)?;
    marks(rt)?;
    formats(rt)?;
    pictures(rt)?;
    faces(rt)?;
    sides(rt)?;
    in_order(rt)?;
    each_byte(rt, PLAIN)?;
    each_byte(rt, EXTENDED)
}

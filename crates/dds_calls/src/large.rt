// The largest file, of 1,024 by 1,024, written and read back.
use crate::{reading, writing};
use cases::{given, show};
use std::io;

pub fn cases(rt: &(impl Print + AllocGlobal)) -> io::Result<()> {
    let mut tile = vec![in rt.alloc(); 0u8; 524288]?;
    given::fill_bytes(tile.as_mut_slice());
    let mut out = vec![in rt.alloc(); 0xa5u8; 524424]?;
    writing::write(rt, tile.as_slice(), 1024, 1024, true, out.as_mut_slice())?;
    println!(rt; ", out {:08x}", show::checksum(out.as_slice()))?;
    let file = given::first(out.as_slice(), 524416);
    println!(rt;
        "read it: {}, body {:08x}",
        reading::found(file),
        show::checksum(dds::body(file)),
    )
}

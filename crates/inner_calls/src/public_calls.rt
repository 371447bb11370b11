// The public calls on sixteen samples and eight bytes, the options as bytes 0, 1 and 2 of a word whose byte 3 is 0. An answer is 0, or the number of the refusal; what comes with it is in `out`.
#[unsafe(no_mangle)]
pub extern "C" fn inner_encode_block(
    samples: &[f32; 16],
    flags: u8,
    limit: u8,
    quality: u8,
    out: &mut u64,
) -> u8 {
    match bc4::word::encode_block(samples, bc4::word::read(flags, limit, quality, 0)) {
        Err(q) => bc4::number(q),
        Ok(b) => {
            *out = b;
            0
        }
    }
}

#[unsafe(no_mangle)]
pub extern "C" fn inner_decode_block(encoded: &[u8; 8], snorm: bool, out: &mut [f32; 16]) -> u8 {
    match bc4::decode_block(encoded, snorm, out) {
        Err(q) => bc4::number(q),
        Ok(()) => 0,
    }
}

#[unsafe(no_mangle)]
pub extern "C" fn inner_block_error(
    samples: &[f32; 16],
    encoded: &[u8; 8],
    snorm: bool,
    out: &mut f32,
) -> u8 {
    match bc4::block_error(samples, encoded, snorm) {
        Err(q) => bc4::number(q),
        Ok(x) => {
            *out = x;
            0
        }
    }
}

#[unsafe(no_mangle)]
pub extern "C" fn inner_resend(
    samples: &[f32; 16],
    held: &[u8; 8],
    flags: u8,
    limit: u8,
    quality: u8,
    out: &mut u64,
    fresh: &mut bool,
) -> u8 {
    match bc4::word::resend(samples, held, bc4::word::read(flags, limit, quality, 0)) {
        Err(q) => bc4::number(q),
        Ok(h) => {
            *out = h.block;
            *fresh = h.fresh;
            0
        }
    }
}

// Samples of 16 bits as they stand in a file, two bytes each, the low one first.

// The samples that the bytes are, as far as both lists go.
pub fn decode(bytes: &[u8], samples: &mut [u16]) {
    for (sample, pair) in samples.iter_mut().zip(bytes.chunks_exact(2)) {
        *sample = u16::from_le_bytes([pair[0], pair[1]]);
    }
}

// The bytes that the samples are, as far as both lists go.
pub fn encode(samples: &[u16], bytes: &mut [u8]) {
    for (sample, pair) in samples.iter().zip(bytes.chunks_exact_mut(2)) {
        pair.copy_from_slice(&sample.to_le_bytes());
    }
}

// Bytes and residues that are given as text in hexadecimal.

// The bytes of the text, which has two digits for each.
pub fn bytes<const N: usize>(text: &[u8]) -> [u8; N] {
    let mut bytes = [0; N];
    let _ = hex::decode_to_slice(text, &mut bytes);
    bytes
}

// The residues of the text, which has four digits for each.
pub fn residues<const N: usize>(text: &[u8]) -> [u16; N] {
    let mut residues = [0; N];
    for (residue, digits) in residues.iter_mut().zip(text.chunks_exact(4)) {
        *residue = u16::from_be_bytes(bytes(digits));
    }
    residues
}

// Two small designs. A design is its name, eight bytes, and then stitches: each a step across the cloth and a step
// along it, as signed bytes.

pub(crate) const ROSE: [u8; 24] =
    *b"ROSE 01\x00\x03\x01\x05\x00\x02\xfe\x00\xfb\xfd\x01\xfb\x02\x00\x05\xff\x01";

pub(crate) const LEAF: [u8; 20] = *b"LEAF 02\x00\x01\x04\x02\x04\x04\x02\xfc\x02\xfe\xfc\x00\xfa";

// Bytes that are laid over a design: the place of the first in it, and all of them.
pub(crate) struct Patch {
    pub(crate) place: u32,
    pub(crate) steps: [u8; 2],
}

// The third stitch of the rose, redrawn.
pub(crate) const REDRAWN: Patch = Patch {
    place: 12,
    steps: [0x06, 0xfd],
};

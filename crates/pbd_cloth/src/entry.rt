//! Links as a caller in C has them.

/// A link, live or not.
#[repr(C)]
#[derive(Clone, Copy, Debug, PartialEq, Eq)]
pub struct LinkEntry {
    /// The rest length, in units of 1/65,536 metre.
    pub rest: i64,
    /// The length above which it tears, and 0 where it never does.
    pub tear: i64,
    /// The numbers of its ends.
    pub a: u32,
    pub b: u32,
    /// The stiffness, in 256ths.
    pub stiffness: u16,
    /// What it is in a cloth, a rope or a mesh: 0 stretch, 1 shear, 2 bend; and 3 for a link of the scene itself.
    pub kind: u8,
    /// 1 where it is live, and 0 where it was cut or torn.
    pub live: u8,
}

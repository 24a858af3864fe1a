ghost use Rattle.std.specs.Prelude.{◌≡◌, ◌+◌, ◌-◌, ◌%◌, ◌^◌, IfSome};

/// The bits of the numbers of a width.
#[derive(Clone, Copy, Debug)]
pub struct Mask {
    bits: u32,
    width: u32,
    ghost is: { bits + 1 ≡ 2 ^ width },
}

impl Mask {
    /// The mask of a width, none where it is over 32.
    pub fn of(width: u32) -> Option<Mask>
        ensures { IfSome result (λ mask. mask.width ≡ width) }
    {
        if width > 32 {
            return None;
        }
        let bits = ((1u64 << width) - 1) as u32;
        Some(Mask { bits, width })
    }

    /// What is left of a number below `2^width`.
    #[inline]
    pub fn low(self, number: u64) -> u32
        ensures { result ≡ number % 2 ^ self.width }
    {
        (number & u64::from(self.bits)) as u32
    }

    /// Half of the numbers of the width.
    pub fn half(self) -> u32
        ensures { result ≡ 2 ^ (self.width - 1) }
    {
        self.bits / 2 + 1
    }
}

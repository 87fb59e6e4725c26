//! The curves by name, and the numbers that they stand for.
ghost use Rattle.std.specs.Prelude.{◌≡◌};
ghost use Rattle.coord_model.specs.Form.{form_of};

/// A dependent-time curve. IEC 60255-151: A inverse, B very inverse, C extremely inverse.
/// IEEE C37.112: MI moderately, VI very, EI extremely inverse. A custom curve has constants of its own, as `CurveForm` has.
#[derive(Clone, Copy, PartialEq, Eq, Debug)]
pub enum CurveName {
    IecA,
    IecB,
    IecC,
    IeeeMi,
    IeeeVi,
    IeeeEi,
    Custom { k4: u32, c4: u32, e: u32, h: u32 },
}

/// The numbers of a curve: `k / (M^(e/h) - 1) + c` seconds at the multiple of pickup M. `k4` and `c4` are
/// k and c in ten-thousandths of a second.
#[derive(Clone, Copy, PartialEq, Eq, Debug)]
pub struct CurveForm {
    pub k4: u32,
    pub c4: u32,
    pub e: u32,
    pub h: u32,
}

/// The numbers of a curve, as IEC 60255-151 and IEEE C37.112 give them, or its own.
pub fn form(curve: CurveName) -> CurveForm
    ensures { result ≡ form_of curve }
{
    let (k4, c4, e, h) = match curve {
        CurveName::IecA => (1_400, 0, 1, 50),
        CurveName::IecB => (135_000, 0, 1, 1),
        CurveName::IecC => (800_000, 0, 2, 1),
        CurveName::IeeeMi => (515, 1_140, 1, 50),
        CurveName::IeeeVi => (196_100, 4_910, 2, 1),
        CurveName::IeeeEi => (282_000, 1_217, 2, 1),
        CurveName::Custom { k4, c4, e, h } => (k4, c4, e, h),
    };
    CurveForm { k4, c4, e, h }
}

/// A curve of operating times.
///
/// `enclose` takes the multiple of pickup `num/den`, from 1.05 to 30, and answers the two ends of the time at
/// dial 1 in whole nanoseconds: the first at most the curve's time, the second at least it.
pub trait Curve {
    ghost use Rattle.std.specs.Prelude.{◌≡◌, ℕ, Bool, ◌+◌, ◌^◌, ◌<◌, ◌≤◌};
    ghost use Rattle.coord_model.specs.Enclosure.{Root, enclosure, width_of, IsEnclosable, IsAtMost, IsNotAbove};
    ghost use Rattle.coord_model.specs.Time.{Multiple, IsUnder, IsOver};
    ghost use Rattle.coord_model.specs.declared.curve.CurveForm.{CurveForm};

    /// The numbers of the curve.
    ghost numbers: { Self → CurveForm };

    /// Whether its constants are its own, and not those of a standard.
    ghost is_custom: { Bool };

    /// The constants are ones that such a curve may have.
    ghost HasConstants: { Self → Type 0 };

    /// The ends that it takes for the power of a multiple, where that is a root.
    ghost root: { Self → Multiple → Root };

    fn form(&self) -> CurveForm
        ensures exact { result ≡ numbers self.now }
        ensures constants { HasConstants self.now };

    fn enclose(&self, num: u64, den: u64) -> (u64, u64)
        requires { IsEnclosable (record { num = num; den = den }) }
        ensures exact { let m : Multiple = record { num = num; den = den } in
            let ends = enclosure is_custom (numbers self.now) (root self.now m) m in result ≡ (ends.lower, ends.upper) }
        ensures under { IsUnder (numbers self.now) (record { num = num; den = den }) result.0 (10 ^ 9) }
        ensures over { IsOver (numbers self.now) (record { num = num; den = den }) result.1 (10 ^ 9) }
        ensures ordered { result.0 ≤ result.1 }
        ensures narrow { result.1 ≤ result.0 + width_of is_custom (numbers self.now) }
        ensures bounded { (0 < result.0) × (result.1 < 2 ^ 40) };

    /// Neither end rises as the multiple grows.
    ghost falls: { (c : Self) (m m' : Multiple) → HasConstants c → IsEnclosable m → IsEnclosable m' → IsAtMost m m'
        → IsNotAbove (enclosure is_custom (numbers c) (root c m') m') (enclosure is_custom (numbers c) (root c m) m) };
}

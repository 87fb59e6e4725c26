//! A curve of its own constants.
ghost use Rattle.std.specs.Prelude.{◌≡◌, ◌^◌, ◌<◌, ◌≤◌, ◌*◌, ◌↔◌, IfSome, IsNone, IsTrue};
ghost use Rattle.coord_model.specs.CustomForm.{IsCustomForm, IsExponent, IsInRange, IsSmall, lowest};
ghost use Rattle.coord_model.specs.Enclosure.{IsEnclosable};
ghost use Rattle.coord_model.specs.Time.{Multiple};
ghost use Rattle.curve_custom.specs.Ends.{custom_enclosure};

use crate::power::ONE;
use crate::root::root_ends;
use coord_model::limits::{
    GREATEST_CUSTOM_C, GREATEST_CUSTOM_H, GREATEST_CUSTOM_J, GREATEST_CUSTOM_K,
};
use coord_model::{Curve, CurveForm, ends_between};
use std::marker::Model;

/// A dependent-time curve whose constants a network file gives.
#[derive(Drop)]
pub struct CustomCurve {
    form: CurveForm,
}

impl Model for CustomCurve {
    ghost use Rattle.coord_model.specs.CustomForm.{IsCustomForm};
    ghost use Rattle.coord_model.specs.declared.curve.CurveForm.{CurveForm};

    ghost Value = { CurveForm };

    ghost view = { λ curve. curve.form };

    ghost invariant = { λ curve. IsCustomForm curve.form };
}

impl CustomCurve {
    /// The curve with these constants: k and c in ten-thousandths of a second, and the exponent e/h.
    ///
    /// `None`: k is not 1 to 10,000,000, c is above 1,000,000, e is not 1 to 4, h is not 1 to 100, the exponent is neither 1, 2,
    /// 3 nor a fraction of at most 3/2, or the upper end of the time at 1.05 times pickup is 2^40 ns or more.
    pub fn new(form: CurveForm) -> Option<CustomCurve>
        ensures given { IfSome result (λ curve. curve ≡ form) }
        ensures allowed { IfSome result IsCustomForm }
        ensures refused { IsNone result → ¬ (IsCustomForm form) }
    {
        if is_in_range(form) && is_exponent(form) && is_small(form) {
            Some(CustomCurve { form })
        } else {
            None
        }
    }

    /// The curve with constants that are known to be allowed.
    pub fn of(form: CurveForm) -> CustomCurve
        requires { IsCustomForm form }
        ensures { result ≡ form }
    {
        CustomCurve { form }
    }
}

/// Whether each number is in its range.
fn is_in_range(form: CurveForm) -> bool
    ensures { IsTrue result ↔ IsInRange form }
{
    (1..=GREATEST_CUSTOM_K).contains(&form.k4)
        && form.c4 <= GREATEST_CUSTOM_C
        && (1..=GREATEST_CUSTOM_J).contains(&form.e)
        && (1..=GREATEST_CUSTOM_H).contains(&form.h)
}

/// Whether the exponent is 1, 2 or 3, or a fraction of at most 3/2.
fn is_exponent(form: CurveForm) -> bool
    requires { IsInRange form }
    ensures { IsTrue result ↔ IsExponent form }
{
    if form.h == 1 {
        form.e <= 3
    } else {
        2 * form.e <= 3 * form.h
    }
}

/// Whether the upper end of the time at 1.05 times pickup is below 2^40 ns.
fn is_small(form: CurveForm) -> bool
    requires range { IsInRange form }
    requires exponent { IsExponent form }
    ensures { IsTrue result ↔ IsSmall form }
{
    ends(form, 105, 100).1 < 1 << 40
}

/// The ends of the time at a multiple of pickup, by where the power of the multiple lies.
fn ends(form: CurveForm, num: u64, den: u64) -> (u64, u64)
    requires range { IsInRange form }
    requires exponent { IsExponent form }
    requires multiple { IsEnclosable (record { num = num; den = den }) }
    ensures { let m : Multiple = record { num = num; den = den } in
        let ends = custom_enclosure form m in result ≡ (ends.lower, ends.upper) }
{
    if form.h == 1 {
        let power = u128::from(num).pow(form.e);
        ends_between(form, u128::from(den).pow(form.e), power, power)
    } else {
        let (low, high) = root_ends(form, num, den);
        ends_between(form, ONE, low, high)
    }
}

impl Curve for CustomCurve {
    ghost use Rattle.std.specs.Prelude.{true};
    ghost use Rattle.coord_model.specs.CustomForm.{IsCustomForm};
    ghost use Rattle.curve_custom.specs.Ends.{root_of};
    ghost use Rattle.curve_custom.specs.Laws as laws;

    ghost numbers = { λ curve. curve };

    ghost is_custom = { true };

    ghost HasConstants = { IsCustomForm };

    ghost root = { root_of };

    ghost falls = { laws.falls };

    fn form(&self) -> CurveForm {
        self.form
    }

    fn enclose(&self, num: u64, den: u64) -> (u64, u64) {
        ends(self.form, num, den)
    }
}

#[cfg(test)]
mod tests {
    use super::*;

    // The ends of the time of a curve with these constants at a multiple, as a crate above sees them.
    fn time(form: CurveForm, num: u64, den: u64) -> Option<(u64, u64)>
        requires { IsEnclosable (record { num = num; den = den }) }
    {
        let curve = CustomCurve::new(form)?;
        Some(curve.enclose(num, den))
    }

    const fn form(k4: u32, c4: u32, e: u32, h: u32) -> CurveForm {
        CurveForm { k4, c4, e, h }
    }

    // The square root of 4 is 2 and its 3/2-th power 8: 1 / (2 - 1), 7 / (8 - 1), and 0.5 + 26 / (27 - 1) seconds.
    #[test]
    fn exact_roots_have_one_end(rt: HostRuntime) {
        let second = Some((1_000_000_000, 1_000_000_000));
        assert_eq!(rt; time(form(10_000, 0, 1, 2), 4, 1), second);
        assert_eq!(rt; time(form(70_000, 0, 3, 2), 4, 1), second);
        assert_eq!(rt;
            time(form(260_000, 5_000, 3, 1), 3, 1),
            Some((1_500_000_000, 1_500_000_000))
        );
    }

    // 0.14 / (10^0.02 - 1) is 2.970598624188.. seconds.
    #[test]
    fn a_fiftieth_root_lies_between_its_ends(rt: HostRuntime) {
        let Some((lower, upper)) = time(form(1_400, 0, 1, 50), 10, 1) else {
            assert!(rt; false);
            return;
        };
        assert!(rt; lower <= 2_970_598_624 && 2_970_598_625 <= upper);
        assert!(rt; upper - lower <= 5_000);
    }

    // At 1.05 times pickup 54.9755 / 0.05 is 1,099.510 seconds, and 2^40 ns are 1,099.511627776.
    #[test]
    fn constants_past_their_limits_are_refused(rt: HostRuntime) {
        assert!(rt; CustomCurve::new(form(549_755, 0, 1, 1)).is_some());
        for refused in &[
            form(549_756, 0, 1, 1),
            form(0, 0, 1, 1),
            form(1, 1_000_001, 1, 1),
            form(1, 0, 0, 1),
            form(1, 0, 4, 1),
            form(1, 0, 4, 2),
            form(1, 0, 1, 0),
            form(1, 0, 1, 101),
        ] {
            assert!(rt; CustomCurve::new(*refused).is_none());
        }
        assert!(rt; CustomCurve::new(form(1, 0, 4, 3)).is_some());
        assert!(rt; CustomCurve::new(form(1, 0, 1, 100)).is_some());
    }
}

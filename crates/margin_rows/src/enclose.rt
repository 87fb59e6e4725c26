//! The enclosure of a curve's operating time in whole nanoseconds.
ghost use Rattle.std.specs.Prelude.{◌≡◌, ◌+◌, ◌^◌, ◌≤◌};
ghost use Rattle.coord_model.specs.Enclosure.{width_of, IsEnclosable};
ghost use Rattle.coord_model.specs.Form.{form_of, is_custom};
ghost use Rattle.coord_model.specs.PartLimits.{FitsCurve};
ghost use Rattle.coord_model.specs.Time.{Multiple, IsUnder, IsOver};
ghost use Rattle.margin_rows.specs.Times.{curve_time, ends_of, IsOrdinary};

use crate::ends::Ends;
use coord_model::{Curve, CurveForm, CurveName};
use curve_custom::CustomCurve;
use curve_iec::IecCurve;
use curve_ieee::IeeeCurve;

/// The ends of a curve's time at the multiple of pickup `num/den`, from 1.05 to 30, in nanoseconds at dial 1.
#[tactic(auto, using(crate::proofs::Curves::time_is_ordinary), unfolding(crate::specs::Times::curve_time))]
pub fn enclose(curve: CurveName, num: u64, den: u64) -> Ends
    requires curve { FitsCurve curve }
    requires multiple { IsEnclosable (record { num = num; den = den }) }

    ensures exact { let m : Multiple = record { num = num; den = den } in result ≡ ends_of (curve_time curve m) }
    ensures under { IsUnder (form_of curve) (record { num = num; den = den }) result.lower (10 ^ 9) }
    ensures over { IsOver (form_of curve) (record { num = num; den = den }) result.upper (10 ^ 9) }
    ensures narrow { result.upper ≤ result.lower + width_of (is_custom curve) (form_of curve) }
    ensures ordinary { let m : Multiple = record { num = num; den = den } in IsOrdinary (curve_time curve m) }
{
    let (lower, upper) = match curve {
        CurveName::IecA => IecCurve::A.enclose(num, den),
        CurveName::IecB => IecCurve::B.enclose(num, den),
        CurveName::IecC => IecCurve::C.enclose(num, den),
        CurveName::IeeeMi => IeeeCurve::MI.enclose(num, den),
        CurveName::IeeeVi => IeeeCurve::VI.enclose(num, den),
        CurveName::IeeeEi => IeeeCurve::EI.enclose(num, den),
        CurveName::Custom { k4, c4, e, h } => {
            CustomCurve::of(CurveForm { k4, c4, e, h }).enclose(num, den)
        }
    };
    Ends { lower, upper }
}

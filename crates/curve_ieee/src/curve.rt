//! The enclosures of the curves.
ghost use Rattle.std.specs.Prelude.{◌≡◌, ◌≤◌, ⊤, false};
ghost use Rattle.coord_model.specs.Enclosure.{enclosure, IsEnclosable};
ghost use Rattle.coord_model.specs.Form.{form_of};
ghost use Rattle.coord_model.specs.Time.{Multiple};

use coord_model::{Curve, CurveForm, CurveName, ends_between, form};
use root_interval::{ONE, root50};

/// A dependent-time curve of IEEE C37.112: MI moderately, VI very, EI extremely inverse.
#[derive(Clone, Copy)]
pub enum IeeeCurve {
    MI,
    VI,
    EI,
}

impl IeeeCurve {
    ghost use Rattle.curve_ieee.specs.Curves.{name_of, root_of};

    // The ends of the time, by where the power of the multiple lies.
    fn ends(&self, num: u64, den: u64) -> (u64, u64)
        requires { IsEnclosable (record { num = num; den = den }) }
        ensures { let m : Multiple = record { num = num; den = den } in
            let ends = enclosure false (form_of (name_of self.now)) (root_of m) m in result ≡ (ends.lower, ends.upper) }
    {
        let form = self.form();
        let whole_num = u128::from(num);
        let whole_den = u128::from(den);
        match self {
            IeeeCurve::MI => {
                let (low, high) = root50(num, den);
                ends_between(form, ONE, low, high)
            }
            IeeeCurve::VI | IeeeCurve::EI => {
                let square = whole_num * whole_num;
                ends_between(form, whole_den * whole_den, square, square)
            }
        }
    }
}

impl Curve for IeeeCurve {
    ghost use Rattle.curve_ieee.specs.Curves.{name_of, root_of};
    ghost use Rattle.curve_ieee.specs.Laws as laws;

    ghost numbers = { λ curve. form_of (name_of curve) };

    ghost is_custom = { false };

    ghost HasConstants = { λ _. ⊤ };

    ghost root = { λ _. root_of };

    ghost falls = { λ c m m' _. laws.falls c m m' };

    fn form(&self) -> CurveForm {
        form(match self {
            IeeeCurve::MI => CurveName::IeeeMi,
            IeeeCurve::VI => CurveName::IeeeVi,
            IeeeCurve::EI => CurveName::IeeeEi,
        })
    }

    fn enclose(&self, num: u64, den: u64) -> (u64, u64) {
        self.ends(num, den)
    }
}

#[cfg(test)]
mod tests {
    use super::*;

    // The enclosure as a crate above sees it, which knows no more than the laws of a curve.
    fn time<C: Curve>(curve: &C, num: u64, den: u64) -> (u64, u64)
        requires { IsEnclosable (record { num = num; den = den }) }
        ensures { result.0 ≤ result.1 }
    {
        curve.enclose(num, den)
    }

    // 0.0515 / (10^0.02 - 1) + 0.114 is 1.206755922469.. seconds.
    #[test]
    fn moderately_inverse(rt: HostRuntime) {
        assert_eq!(rt; time(&IeeeCurve::MI, 10, 1), (1_206_755_922, 1_206_755_923));
    }

    // 19.61 / 99 + 0.491 and 28.2 / 24 + 0.1217 seconds.
    #[test]
    fn very_and_extremely_inverse(rt: HostRuntime) {
        assert_eq!(rt; time(&IeeeCurve::VI, 10, 1), (689_080_808, 689_080_809));
        assert_eq!(rt; time(&IeeeCurve::EI, 5, 1), (1_296_700_000, 1_296_700_000));
    }

    // 0.0515 / (1.05^0.02 - 1) + 0.114 is 52.865285047113.. seconds, 19.61 / 0.1025 + 0.491 is 191.808073170731..
    // and 28.2 / 0.1025 + 0.1217 is 275.243651219512..
    #[test]
    fn at_the_lowest_multiple(rt: HostRuntime) {
        assert_eq!(rt;
            time(&IeeeCurve::MI, 105, 100),
            (52_865_285_047, 52_865_285_048)
        );
        assert_eq!(rt;
            time(&IeeeCurve::VI, 105, 100),
            (191_808_073_170, 191_808_073_171)
        );
        assert_eq!(rt;
            time(&IeeeCurve::EI, 105, 100),
            (275_243_651_219, 275_243_651_220)
        );
    }
}

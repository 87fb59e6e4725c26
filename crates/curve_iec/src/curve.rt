//! The enclosures of the curves.
ghost use Rattle.std.specs.Prelude.{◌≡◌, ◌≤◌, ⊤, false};
ghost use Rattle.coord_model.specs.Enclosure.{enclosure, IsEnclosable};
ghost use Rattle.coord_model.specs.Form.{form_of};
ghost use Rattle.coord_model.specs.Time.{Multiple};

use coord_model::{Curve, CurveForm, CurveName, ends_between, form};
use root_interval::{ONE, root50};

/// A dependent-time curve of IEC 60255-151: A inverse, B very inverse, C extremely inverse.
#[derive(Clone, Copy)]
pub enum IecCurve {
    A,
    B,
    C,
}

impl IecCurve {
    ghost use Rattle.curve_iec.specs.Curves.{name_of, root_of};

    // The ends of the time, by where the power of the multiple lies.
    fn ends(&self, num: u64, den: u64) -> (u64, u64)
        requires { IsEnclosable (record { num = num; den = den }) }
        ensures { let m : Multiple = record { num = num; den = den } in
            let ends = enclosure false (form_of (name_of self.now)) (root_of m) m in result ≡ (ends.lower, ends.upper) }
    {
        let form = self.form();
        let whole_num = u128::from(num);
        let whole_den = u128::from(den);
        match self {
            IecCurve::A => {
                let (low, high) = root50(num, den);
                ends_between(form, ONE, low, high)
            }
            IecCurve::B => ends_between(form, whole_den, whole_num, whole_num),
            IecCurve::C => {
                let square = whole_num * whole_num;
                ends_between(form, whole_den * whole_den, square, square)
            }
        }
    }
}

impl Curve for IecCurve {
    ghost use Rattle.curve_iec.specs.Curves.{name_of, root_of};
    ghost use Rattle.curve_iec.specs.Laws as laws;

    ghost numbers = { λ curve. form_of (name_of curve) };

    ghost is_custom = { false };

    ghost HasConstants = { λ _. ⊤ };

    ghost root = { λ _. root_of };

    ghost falls = { λ c m m' _. laws.falls c m m' };

    fn form(&self) -> CurveForm {
        form(match self {
            IecCurve::A => CurveName::IecA,
            IecCurve::B => CurveName::IecB,
            IecCurve::C => CurveName::IecC,
        })
    }

    fn enclose(&self, num: u64, den: u64) -> (u64, u64) {
        self.ends(num, den)
    }
}

#[cfg(test)]
mod tests {
    use super::*;

    // The enclosure as a crate above sees it, which knows no more than the laws of a curve.
    fn time<C: Curve>(curve: &C, num: u64, den: u64) -> (u64, u64)
        requires { IsEnclosable (record { num = num; den = den }) }
        ensures { result.0 ≤ result.1 }
    {
        curve.enclose(num, den)
    }

    // 0.14 / (10^0.02 - 1) is 2.970598624188.. seconds.
    #[test]
    fn inverse(rt: HostRuntime) {
        let (lower, upper) = time(&IecCurve::A, 10, 1);
        assert!(rt; 2_970_598_000 <= lower);
        assert!(rt; upper <= 2_970_600_000);
        assert!(rt; upper - lower <= 100);
        assert_eq!(rt; time(&IecCurve::A, 10, 1), (2_970_598_624, 2_970_598_625));
    }

    // 13.5 / 7 and 80 / 8 seconds.
    #[test]
    fn very_and_extremely_inverse(rt: HostRuntime) {
        assert_eq!(rt; time(&IecCurve::B, 8, 1), (1_928_571_428, 1_928_571_429));
        assert_eq!(rt; time(&IecCurve::C, 3, 1), (10_000_000_000, 10_000_000_000));
    }

    // 13.5 / 19 and 80 / 399 seconds, at a multiple where relays get no faster.
    #[test]
    fn at_twenty_times_the_pickup(rt: HostRuntime) {
        assert_eq!(rt; time(&IecCurve::B, 20, 1), (710_526_315, 710_526_316));
        assert_eq!(rt; time(&IecCurve::C, 20, 1), (200_501_253, 200_501_254));
    }

    // 0.14 / (1.05^0.02 - 1) is 143.401551584386.. seconds, 13.5 / 0.05 is 270, 80 / 0.1025 is 780.487804878048..
    #[test]
    fn at_the_lowest_multiple(rt: HostRuntime) {
        assert_eq!(rt;
            time(&IecCurve::A, 105, 100),
            (143_401_551_584, 143_401_551_585)
        );
        assert_eq!(rt;
            time(&IecCurve::B, 105, 100),
            (270_000_000_000, 270_000_000_000)
        );
        assert_eq!(rt;
            time(&IecCurve::C, 105, 100),
            (780_487_804_878, 780_487_804_879)
        );
    }
}

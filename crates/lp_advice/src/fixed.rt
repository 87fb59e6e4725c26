//! Checked arithmetic in fixed point, and why the linear programme is given up.
use coord_model::NoMemory;
use std::alloc::{AllocError, AllocFailed};

/// Why the linear programme is given up.
#[derive(Clone, Copy, PartialEq, Eq)]
pub enum Stop {
    NoMemory,
    /// A number does not fit, or a place is none of a list.
    Beyond,
}

impl From<NoMemory> for Stop {
    fn from(_refused: NoMemory) -> Stop {
        Stop::NoMemory
    }
}

impl From<AllocError> for Stop {
    fn from(_refused: AllocError) -> Stop {
        Stop::NoMemory
    }
}

impl<T: Drop> From<AllocFailed<T>> for Stop {
    fn from(_refused: AllocFailed<T>) -> Stop {
        Stop::NoMemory
    }
}

/// The places after the binary point.
const PLACES: u32 = 32;

/// The number 1.
pub const ONE: i64 = 1 << 32;

/// What is at a place of a list.
pub fn at<T: Copy>(list: &[T], place: usize) -> Result<T, Stop> {
    match list.get(place) {
        Some(&item) => Ok(item),
        None => Err(Stop::Beyond),
    }
}

/// Puts something at a place of a list.
pub fn put<T: Copy>(list: &mut [T], place: usize, item: T) -> Result<(), Stop> {
    match list.get_mut(place) {
        Some(held) => {
            *held = item;
            Ok(())
        }
        None => Err(Stop::Beyond),
    }
}

pub fn add(a: i64, b: i64) -> Result<i64, Stop> {
    a.checked_add(b).ok_or(Stop::Beyond)
}

pub fn sub(a: i64, b: i64) -> Result<i64, Stop> {
    a.checked_sub(b).ok_or(Stop::Beyond)
}

/// A number of twice as many places after the binary point as a number within 64 bits.
pub fn narrow(wide: i128) -> Result<i64, Stop> {
    fit(wide >> PLACES)
}

pub fn fit(wide: i128) -> Result<i64, Stop> {
    i64::try_from(wide).map_err(|_| Stop::Beyond)
}

/// A sum and a product, of twice as many places after the binary point.
pub fn add_product(sum: i128, a: i64, b: i64) -> Result<i128, Stop> {
    let product = i128::from(a).checked_mul(i128::from(b));
    match product {
        Some(product) => sum.checked_add(product).ok_or(Stop::Beyond),
        None => Err(Stop::Beyond),
    }
}

/// A product.
pub fn times(a: i64, b: i64) -> Result<i64, Stop> {
    narrow(add_product(0, a, b)?)
}

/// A quotient.
pub fn over(a: i64, b: i64) -> Result<i64, Stop> {
    let wide = i128::from(a) * i128::from(ONE);
    match wide.checked_div(i128::from(b)) {
        Some(quotient) => fit(quotient),
        None => Err(Stop::Beyond),
    }
}

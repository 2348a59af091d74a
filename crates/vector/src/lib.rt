// Vectors of three doubles, with the arithmetic that document 01 gives `DVec3`.
#![tactic(auto)]

ghost use Rattle.std.specs.Prelude.{◌≡◌};
ghost use Rattle.vector.specs.Vec.{vec, vadd, vsub, vscale, vdivs, vneg, vdot, vcross, vlength, vlength_squared, vnormalize, vnormalize_or_zero, same_vec};

use std::ops::{Add, Div, Mul, Neg, Sub};

// `==` compares by value: +0 equals -0, and NaN equals nothing.
#[derive(Clone, Copy, PartialEq)]
pub struct DVec3 {
    pub x: f64,
    pub y: f64,
    pub z: f64,
}

impl DVec3 {
    pub const ZERO: DVec3 = DVec3 {
        x: 0.0,
        y: 0.0,
        z: 0.0,
    };

    pub const Z: DVec3 = DVec3 {
        x: 0.0,
        y: 0.0,
        z: 1.0,
    };

    pub fn new(x: f64, y: f64, z: f64) -> DVec3
        ensures { result ≡ vec x y z }
    {
        DVec3 { x, y, z }
    }

    #[tactic(auto, unfolding(crate::specs::Vec::vdot))]
    pub fn dot(self, w: DVec3) -> f64
        ensures { result ≡ vdot self w }
    {
        (self.x * w.x + self.y * w.y) + self.z * w.z
    }

    #[tactic(auto, unfolding(crate::specs::Vec::vcross))]
    pub fn cross(self, w: DVec3) -> DVec3
        ensures { result ≡ vcross self w }
    {
        DVec3 {
            x: self.y * w.z - self.z * w.y,
            y: self.z * w.x - self.x * w.z,
            z: self.x * w.y - self.y * w.x,
        }
    }

    #[tactic(auto, unfolding(crate::specs::Vec::vlength_squared))]
    pub fn length_squared(self) -> f64
        ensures { result ≡ vlength_squared self }
    {
        self.dot(self)
    }

    #[tactic(auto, unfolding(crate::specs::Vec::vlength))]
    pub fn length(self) -> f64
        ensures { result ≡ vlength self }
    {
        root::root(self.dot(self))
    }

    #[tactic(auto, unfolding(crate::specs::Vec::vnormalize))]
    pub fn normalize(self) -> DVec3
        ensures { result ≡ vnormalize self }
    {
        self * (1.0 / self.length())
    }

    #[tactic(auto, unfolding(crate::specs::Vec::vnormalize_or_zero))]
    pub fn normalize_or_zero(self) -> DVec3
        ensures { result ≡ vnormalize_or_zero self }
    {
        let rcp = 1.0 / self.length();
        if number::is_finite(rcp) && rcp > 0.0 {
            self * rcp
        } else {
            DVec3::ZERO
        }
    }
}

impl Add for DVec3 {
    type Output = DVec3;

    ghost add_gives = { λ v w r. r ≡ vadd v w };

    #[tactic(auto, unfolding(crate::specs::Vec::vadd))]
    fn add(self, w: DVec3) -> DVec3 {
        DVec3 {
            x: self.x + w.x,
            y: self.y + w.y,
            z: self.z + w.z,
        }
    }
}

impl Sub for DVec3 {
    type Output = DVec3;

    ghost sub_gives = { λ v w r. r ≡ vsub v w };

    #[tactic(auto, unfolding(crate::specs::Vec::vsub))]
    fn sub(self, w: DVec3) -> DVec3 {
        DVec3 {
            x: self.x - w.x,
            y: self.y - w.y,
            z: self.z - w.z,
        }
    }
}

impl Mul<f64> for DVec3 {
    type Output = DVec3;

    ghost mul_gives = { λ v s r. r ≡ vscale v s };

    #[tactic(auto, unfolding(crate::specs::Vec::vscale))]
    fn mul(self, s: f64) -> DVec3 {
        DVec3 {
            x: self.x * s,
            y: self.y * s,
            z: self.z * s,
        }
    }
}

impl Div<f64> for DVec3 {
    type Output = DVec3;

    ghost div_gives = { λ v s r. r ≡ vdivs v s };

    #[tactic(auto, unfolding(crate::specs::Vec::vdivs))]
    fn div(self, s: f64) -> DVec3 {
        DVec3 {
            x: self.x / s,
            y: self.y / s,
            z: self.z / s,
        }
    }
}

impl Neg for DVec3 {
    type Output = DVec3;

    ghost neg_gives = { λ v r. r ≡ vneg v };

    #[tactic(auto, unfolding(crate::specs::Vec::vneg))]
    fn neg(self) -> DVec3 {
        DVec3 {
            x: -self.x,
            y: -self.y,
            z: -self.z,
        }
    }
}

// The ground's surfaces and what their laws give: restitution, rolling friction and Penner's contact angle.
#![tactic(auto)]

ghost use Rattle.std.specs.Prelude.{◌≡◌};
ghost use Rattle.surface.specs.Surface.{fairway, green, coefficient_at, speed_factor, rolling_friction, contact_angle};

use number::PI;
use vector::DVec3;

// Penner (2002) eq. 8 reference contact angle (rad): 15.4°.
const PENNER_THETA_C: f64 = 15.4 * PI / 180.0;
// Impact speed (m/s) and incidence angle from the normal (rad) of Haake's measured green impact.
const PENNER_REF_SPEED: f64 = 18.6;

const PENNER_REF_ANGLE: f64 = 44.4 * PI / 180.0;
// Tangential speed (m/s) up to which an impact has no tilt direction.
const MIN_TILT_SPEED: f64 = 0.01;
// Normal impact speed (m/s) from which the contact angle applies in full.
const TILT_ONSET_SPEED: f64 = 2.0;

// Normal coefficient of restitution between ball and turf.
#[derive(Clone, Copy)]
pub enum Restitution {
    Constant(f64),
    Penner2002,
}

// Speed dependence of the rolling resistance.
#[derive(Clone, Copy)]
pub enum RollLaw {
    Constant,
    Quadratic { v_ref: f64 },
    Exponential { v_ref: f64 },
}

// Material properties of a patch of ground.
#[derive(Clone, Copy)]
pub struct Surface {
    pub restitution: Restitution,
    pub mu_slide: f64,
    pub mu_roll: f64,
    pub roll_law: RollLaw,
    pub compliance: f64,
    pub pivot: f64,
}

// The ground at one horizontal location: height, normal (not unit), the surface and its number on the course sheet.
#[derive(Clone, Copy)]
pub struct GroundSample {
    pub height: f64,
    pub normal: DVec3,
    pub surface: Surface,
    pub number: u64,
}

impl Restitution {
    // Coefficient of restitution at the given normal impact speed (m/s), whose sign is ignored.
    pub fn coefficient_at(self, normal_speed: f64) -> f64
        ensures { result ≡ coefficient_at self normal_speed }
    {
        match self {
            Restitution::Constant(e) => e,
            Restitution::Penner2002 => {
                let v = number::abs(normal_speed);
                if v <= 20.0 {
                    0.510 - 0.0375 * v + 0.000_903 * v * v
                } else {
                    0.120
                }
            }
        }
    }
}

impl RollLaw {
    // The factor on the rolling resistance at the speed (m/s).
    pub fn speed_factor(self, speed: f64) -> f64
        ensures { result ≡ speed_factor self speed }
    {
        match self {
            RollLaw::Constant => 1.0,
            // Both arms test s: with `map_or` and a closure in each the proof didn't close, as what `map_or` ensures of an inferred closure can't be named.
            RollLaw::Quadratic { v_ref } => {
                let s = speed / v_ref;
                if number::is_finite(s) {
                    1.0 + s * s
                } else {
                    1.0
                }
            }
            RollLaw::Exponential { v_ref } => {
                let s = speed / v_ref;
                if number::is_finite(s) {
                    exponential::exp(s)
                } else {
                    1.0
                }
            }
        }
    }
}

impl Surface {
    // These two and their functions are under the Rust's names.
    pub const FAIRWAY: Surface = Surface {
        restitution: Restitution::Penner2002,
        mu_slide: 0.40,
        mu_roll: 0.12,
        roll_law: RollLaw::Quadratic { v_ref: 2.5 },
        compliance: 1.0,
        pivot: 0.001,
    };

    pub const GREEN: Surface = Surface {
        restitution: Restitution::Penner2002,
        mu_slide: 0.40,
        mu_roll: 0.055,
        roll_law: RollLaw::Quadratic { v_ref: 2.5 },
        compliance: 1.0,
        pivot: 0.001,
    };

    pub fn fairway() -> Surface
        ensures { result ≡ fairway }
    {
        Surface::FAIRWAY
    }

    pub fn green() -> Surface
        ensures { result ≡ green }
    {
        Surface::GREEN
    }

    // Effective rolling-resistance coefficient at the speed (m/s).
    #[tactic(auto, unfolding(crate::specs::Surface::rolling_friction))]
    pub fn rolling_friction(self, speed: f64) -> f64
        ensures { result ≡ rolling_friction self speed }
    {
        self.mu_roll * self.roll_law.speed_factor(speed)
    }

    // Effective contact angle (rad) for an impact with tangential speed v_t and normal approach speed v_n.
    pub fn contact_angle(self, v_t: f64, v_n: f64) -> f64
        ensures { result ≡ contact_angle self v_t v_n }
    {
        if v_t <= MIN_TILT_SPEED {
            return 0.0;
        }
        let speed = root::hypot(v_t, v_n);
        let incidence = trigonometry::arctangent(v_t, v_n);
        let theta_c = PENNER_THETA_C * (speed / PENNER_REF_SPEED) * (incidence / PENNER_REF_ANGLE);
        let fade = number::min(v_n / TILT_ONSET_SPEED, 1.0);
        number::min(self.compliance * theta_c * fade, incidence)
    }
}

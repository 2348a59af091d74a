// The ball and its flight through the air: drag, Magnus lift and gravity.
#![tactic(auto)]

ghost use Rattle.std.specs.Prelude.{◌≡◌, true};
ghost use Rattle.aero.specs.Aero.{tour, radius_of, area_of, cd_cl_of, magnus_of, from_spin_vector, acceleration_of};
ghost use Rattle.aero.specs.Crisis.{Kept, sigma_of, crisis_of};
ghost use Rattle.exponential.specs.Magnitude.{magnitude_of};

use exponential::Magnitude;
use number::PI;
use vector::DVec3;

// Standard gravity (m/s²), and the gravity vector.
pub const G: f64 = 9.80665;

pub const GRAVITY: DVec3 = DVec3 {
    x: 0.0,
    y: -G,
    z: 0.0,
};

const AIR_DYNAMIC_VISCOSITY: f64 = 1.81e-5;

const DEFAULT_SPIN_DECAY: f64 = 0.04;

// Physical and aerodynamic properties of a golf ball.
#[derive(Clone, Copy)]
pub struct BallModel {
    pub mass_kg: f64,
    pub diameter_m: f64,
    pub inertia_factor: f64,
    pub cd_sub: f64,
    pub cd_super: f64,
    pub cd_spin: f64,
    pub sr_sat: f64,
    pub cl_sub: f64,
    pub cl_super: f64,
    pub sr_scale: f64,
    pub re_crit: f64,
    pub re_width: f64,
}

// Spin axis (unit vector), spin rate (rad/s) and spin decay (1/s) of a ball in flight.
#[derive(Clone, Copy)]
pub struct AeroParams {
    pub spin_axis: DVec3,
    pub spin_rate: f64,
    pub spin_decay: f64,
}

// Drag and lift coefficient.
#[derive(Clone, Copy)]
pub struct CdCl {
    pub cd: f64,
    pub cl: f64,
}

// 2^-54: sigma is no more where exp is vast.
const SLIGHT: f64 = 5.5511151231257827021181583404541015625e-17;

// Whether `sub` stays what it is with a part of up to 2^-54 of the way to `sup` added, of either sign.
fn keeps(sub: f64, sup: f64) -> bool
    ensures { result ≡ true → Kept sub sup }
{
    let part = (sup - sub) * SLIGHT;
    (sub > 0.0) & number::is_finite(part) & (sub + part == sub)
}

// The share of the coefficients above the crisis: 1 where exp is slight.
fn sigma_at(size: Magnitude, x: f64) -> f64
    requires { size ≡ magnitude_of x }
    ensures { result ≡ sigma_of x }
{
    match size {
        Magnitude::Slight => 1.0,
        _ => 1.0 / (1.0 + exponential::exp(x)),
    }
}

impl BallModel {
    // Under the Rust's name, as its function.
    pub const TOUR: BallModel = BallModel {
        mass_kg: 0.04593,
        diameter_m: 0.04267,
        inertia_factor: 0.4,
        cd_sub: 0.295,
        cd_super: 0.186,
        cd_spin: 0.85,
        sr_sat: 0.25,
        cl_sub: 0.203,
        cl_super: 0.324,
        sr_scale: 0.115,
        re_crit: 69_600.0,
        re_width: 106.0,
    };

    pub fn tour() -> BallModel
        ensures { result ≡ tour }
    {
        BallModel::TOUR
    }

    // Ball radius (m).
    pub fn radius_m(self) -> f64
        ensures { result ≡ radius_of self }
    {
        self.diameter_m / 2.0
    }

    // Cross-sectional area (m²).
    pub fn area_m2(self) -> f64
        ensures { result ≡ area_of self }
    {
        PI * self.radius_m() * self.radius_m()
    }

    fn keeps_both(self) -> bool
        ensures { result ≡ true → Kept self.cd_sub self.cd_super × Kept self.cl_sub self.cl_super }
    {
        keeps(self.cd_sub, self.cd_super) & keeps(self.cl_sub, self.cl_super)
    }

    // Both coefficients without spin's part, at x = (re_crit - re) / re_width. Far below the crisis sigma adds nothing to the coefficients there, so that
    // no exponential is taken.
    fn at_crisis(self, x: f64) -> CdCl
        ensures { result ≡ crisis_of self x }
    {
        let size = exponential::how_large(x);
        match size {
            Magnitude::Vast if self.keeps_both() => CdCl {
                cd: self.cd_sub,
                cl: self.cl_sub,
            },
            _ => {
                let sigma = sigma_at(size, x);
                CdCl {
                    cd: self.cd_sub + (self.cd_super - self.cd_sub) * sigma,
                    cl: self.cl_sub + (self.cl_super - self.cl_sub) * sigma,
                }
            }
        }
    }

    // Drag and lift coefficient at the spin rate (rad/s), speed (m/s) and air density (kg/m³).
    pub fn cd_cl(self, spin_rate: f64, speed: f64, air_density: f64) -> CdCl
        ensures { result ≡ cd_cl_of self spin_rate speed air_density }
    {
        if speed < 1e-10 {
            return CdCl {
                cd: self.cd_sub,
                cl: 0.0,
            };
        }
        let re = air_density * speed * self.diameter_m / AIR_DYNAMIC_VISCOSITY;
        let sr = number::abs(spin_rate * self.radius_m() / speed);
        let plain = self.at_crisis(-(re - self.re_crit) / self.re_width);
        CdCl {
            cd: plain.cd + self.cd_spin * sr / (1.0 + sr / self.sr_sat),
            cl: plain.cl * (1.0 - exponential::exp(-sr / self.sr_scale)),
        }
    }

    // Acceleration (m/s²) by gravity, drag and Magnus lift.
    pub fn acceleration(self, vel: DVec3, aero: AeroParams, air_density: f64) -> DVec3
        ensures { result ≡ acceleration_of self vel aero air_density }
    {
        let speed = vel.length();
        if speed < 1e-10 {
            return GRAVITY;
        }
        let vel_hat = vel / speed;
        let c = self.cd_cl(aero.spin_rate, speed, air_density);
        let q = 0.5 * air_density * speed * speed;
        let area = self.area_m2();
        let drag = vel_hat * (-c.cd * q * area / self.mass_kg);
        let magnus = aero.magnus(vel_hat, c.cl * q * area / self.mass_kg);
        GRAVITY + drag + magnus
    }
}

impl AeroParams {
    // From an angular velocity (rad/s). A zero vector gives zero spin about +Z.
    pub fn from_spin_vector(omega: DVec3) -> AeroParams
        ensures { result ≡ from_spin_vector omega }
    {
        let spin_rate = omega.length();
        let spin_axis = if spin_rate > 1e-10 {
            omega / spin_rate
        } else {
            DVec3::Z
        };
        AeroParams {
            spin_axis,
            spin_rate,
            spin_decay: DEFAULT_SPIN_DECAY,
        }
    }

    // Magnus lift of the magnitude lift for a ball that moves along vel_hat, zero without spin or along the axis.
    pub fn magnus(self, vel_hat: DVec3, lift: f64) -> DVec3
        ensures { result ≡ magnus_of self vel_hat lift }
    {
        if number::abs(self.spin_rate) > 1e-10 {
            let lift_dir = self.spin_axis.cross(vel_hat);
            let lift_mag = lift_dir.length();
            if lift_mag > 1e-10 {
                return lift_dir / lift_mag * lift;
            }
        }
        DVec3::ZERO
    }
}

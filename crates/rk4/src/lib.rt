// The states that the two Runge-Kutta steppers advance, and the sums that their stages share.
#![tactic(auto)]

ghost use Rattle.std.specs.Prelude.{◌≡◌};
ghost use Rattle.rk4.specs.Rk4.{moved, weighted, add_scaled, IsStep};

use vector::DVec3;

// Position and velocity.
#[derive(Clone, Copy)]
pub struct State {
    pub pos: DVec3,
    pub vel: DVec3,
}

// Position, velocity and spin of a ball on the ground.
#[derive(Clone, Copy)]
pub struct Motion {
    pub pos: DVec3,
    pub vel: DVec3,
    pub spin: DVec3,
}

// s + k · h
#[tactic(auto, unfolding(crate::specs::Rk4::moved, crate::specs::Rk4::moved_in))]
pub fn move_by(s: DVec3, k: DVec3, h: f64) -> DVec3
    ensures { result ≡ moved s k h }
{
    s + k * h
}

// s + (k1 + 2 · k2 + 2 · k3 + k4) · h
pub fn weigh(s: DVec3, k1: DVec3, k2: DVec3, k3: DVec3, k4: DVec3, h: f64) -> DVec3
    ensures { result ≡ weighted s k1 k2 k3 k4 h }
{
    s + (k1 + k2 * 2.0 + k3 * 2.0 + k4) * h
}

impl Motion {
    #[tactic(auto, unfolding(crate::specs::Rk4::add_scaled))]
    pub fn add_scaled(self, rate: Motion, h: f64) -> Motion
        ensures { result ≡ add_scaled self rate h }
    {
        Motion {
            pos: move_by(self.pos, rate.pos, h),
            vel: move_by(self.vel, rate.vel, h),
            spin: move_by(self.spin, rate.spin, h),
        }
    }

    // One step of length `h` along `rate`, which does not use the time; `k1` is the first stage's rate.
    pub fn step_state<F: Fn(Motion) -> Motion>(self, h: f64, k1: Motion, rate: F) -> Motion
        requires { F.IsAlwaysCallable rate }
        ensures { IsStep (F.post rate) self k1 h result }
    {
        let half = h / 2.0;
        let k2 = rate(self.add_scaled(k1, half));
        let k3 = rate(self.add_scaled(k2, half));
        let k4 = rate(self.add_scaled(k3, h));
        self.add_scaled(k1, h / 6.0)
            .add_scaled(k2, h / 3.0)
            .add_scaled(k3, h / 3.0)
            .add_scaled(k4, h / 6.0)
    }
}

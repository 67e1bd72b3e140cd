// Poses: one record of a translation and a rotation, its product, its inverse and the test that all its numbers are finite.
// Each operation rounds in the order of specs/Pose.antt, which is document 01's.
ghost use Rattle.std.specs.Prelude.{◌≡◌, ◌+◌, ◌≤◌, ◌++◌, Bool, length, drop};
ghost use Rattle.arithmetic.specs.Pose.{zero_vec, add_vec, scale_vec, over_vec, neg_vec, cross, identity_quat, vector_part, add_quat, mul_quat, times_quat, over_quat, conjugate, rotate, dot, norm_squared, identity_pose, mul_pose, inverse_pose, finite_vec, finite_quat, finite_pose, flat, pose_at};

use std::ops::{Add, Div, Mul, Neg};

// A translation, or any vector: x, y, z.
#[repr(C)]
#[derive(Clone, Copy, PartialEq, Debug)]
pub struct Vec3 {
    pub x: f64,
    pub y: f64,
    pub z: f64,
}

// A quaternion i, j, k, w. Any four numbers are taken as a rotation.
#[repr(C)]
#[derive(Clone, Copy, PartialEq, Debug)]
pub struct Quaternion {
    pub i: f64,
    pub j: f64,
    pub k: f64,
    pub w: f64,
}

// A transform T_A_B: a rotation and then a translation, rigid where the rotation has length one.
#[repr(C)]
#[derive(Clone, Copy, PartialEq, Debug)]
pub struct Pose {
    pub translation: Vec3,
    pub rotation: Quaternion,
}

// What is made of doubles.
pub trait Finite {
    // Whether none of its numbers is an infinity or a NaN.
    ghost finite: { Self → Bool };

    fn is_finite(self) -> bool
        ensures { result ≡ finite self };
}

impl Vec3 {
    pub fn zeros() -> Vec3
        ensures { result ≡ zero_vec }
    {
        Vec3 {
            x: 0.0,
            y: 0.0,
            z: 0.0,
        }
    }

    pub fn cross(self, b: Vec3) -> Vec3
        ensures { result ≡ cross self b }
    {
        Vec3 {
            x: self.y * b.z - self.z * b.y,
            y: self.z * b.x - self.x * b.z,
            z: self.x * b.y - self.y * b.x,
        }
    }
}

impl Add for Vec3 {
    type Output = Vec3;

    ghost add_gives = { λ a b r. r ≡ add_vec a b };

    fn add(self, b: Vec3) -> Vec3 {
        Vec3 {
            x: self.x + b.x,
            y: self.y + b.y,
            z: self.z + b.z,
        }
    }
}

impl Mul<f64> for Vec3 {
    type Output = Vec3;

    ghost mul_gives = { λ a s r. r ≡ scale_vec s a };

    fn mul(self, s: f64) -> Vec3 {
        Vec3 {
            x: s * self.x,
            y: s * self.y,
            z: s * self.z,
        }
    }
}

impl Div<f64> for Vec3 {
    type Output = Vec3;

    ghost div_gives = { λ a s r. r ≡ over_vec a s };

    fn div(self, s: f64) -> Vec3 {
        Vec3 {
            x: self.x / s,
            y: self.y / s,
            z: self.z / s,
        }
    }
}

impl Neg for Vec3 {
    type Output = Vec3;

    ghost neg_gives = { λ a r. r ≡ neg_vec a };

    fn neg(self) -> Vec3 {
        Vec3 {
            x: -self.x,
            y: -self.y,
            z: -self.z,
        }
    }
}

impl Finite for Vec3 {
    ghost finite = { finite_vec };

    #[tactic(auto, using(crate::proofs::Finite::finite_alike))]
    fn is_finite(self) -> bool {
        self.x.is_finite() & self.y.is_finite() & self.z.is_finite()
    }
}

impl Quaternion {
    pub fn identity() -> Quaternion
        ensures { result ≡ identity_quat }
    {
        Quaternion {
            i: 0.0,
            j: 0.0,
            k: 0.0,
            w: 1.0,
        }
    }

    pub fn vector(self) -> Vec3
        ensures { result ≡ vector_part self }
    {
        Vec3 {
            x: self.i,
            y: self.j,
            z: self.k,
        }
    }

    pub fn conjugate(self) -> Quaternion
        ensures { result ≡ conjugate self }
    {
        Quaternion {
            i: -self.i,
            j: -self.j,
            k: -self.k,
            w: self.w,
        }
    }

    // v rotated: t = 2 × (vector part × v); then w × t, plus vector part × t, plus v.
    #[tactic(auto, unfolding(crate::specs::Pose::rotate))]
    pub fn rotate(self, v: Vec3) -> Vec3
        ensures { result ≡ rotate self v }
    {
        let u = self.vector();
        let t = u.cross(v) * 2.0;
        t * self.w + u.cross(t) + v
    }

    // (first + third) + (second + fourth): the order of nalgebra's dot product of four.
    pub fn dot(self, b: Quaternion) -> f64
        ensures { result ≡ dot self b }
    {
        (self.i * b.i + self.k * b.k) + (self.j * b.j + self.w * b.w)
    }

    pub fn norm_squared(self) -> f64
        ensures { result ≡ norm_squared self }
    {
        self.dot(self)
    }
}

impl Add for Quaternion {
    type Output = Quaternion;

    ghost add_gives = { λ p q r. r ≡ add_quat p q };

    fn add(self, b: Quaternion) -> Quaternion {
        Quaternion {
            i: self.i + b.i,
            j: self.j + b.j,
            k: self.k + b.k,
            w: self.w + b.w,
        }
    }
}

// Hamilton's product, each number summed from left to right.
impl Mul for Quaternion {
    type Output = Quaternion;

    ghost mul_gives = { λ p q r. r ≡ mul_quat p q };

    fn mul(self, b: Quaternion) -> Quaternion {
        Quaternion {
            i: self.w * b.i + self.i * b.w + self.j * b.k - self.k * b.j,
            j: self.w * b.j - self.i * b.k + self.j * b.w + self.k * b.i,
            k: self.w * b.k + self.i * b.j - self.j * b.i + self.k * b.w,
            w: self.w * b.w - self.i * b.i - self.j * b.j - self.k * b.k,
        }
    }
}

impl Mul<f64> for Quaternion {
    type Output = Quaternion;

    ghost mul_gives = { λ q s r. r ≡ times_quat q s };

    fn mul(self, s: f64) -> Quaternion {
        Quaternion {
            i: self.i * s,
            j: self.j * s,
            k: self.k * s,
            w: self.w * s,
        }
    }
}

impl Div<f64> for Quaternion {
    type Output = Quaternion;

    ghost div_gives = { λ q s r. r ≡ over_quat q s };

    fn div(self, s: f64) -> Quaternion {
        Quaternion {
            i: self.i / s,
            j: self.j / s,
            k: self.k / s,
            w: self.w / s,
        }
    }
}

impl Finite for Quaternion {
    ghost finite = { finite_quat };

    #[tactic(auto, using(crate::proofs::Finite::finite_alike))]
    fn is_finite(self) -> bool {
        self.i.is_finite() & self.j.is_finite() & self.k.is_finite() & self.w.is_finite()
    }
}

impl Pose {
    pub fn identity() -> Pose
        ensures { result ≡ identity_pose }
    {
        Pose {
            translation: Vec3::zeros(),
            rotation: Quaternion::identity(),
        }
    }

    // T_B_A from T_A_B, where the rotation has length one: conjugate the rotation, negate the translation, rotate it by the conjugate.
    #[tactic(auto, unfolding(crate::specs::Pose::inverse_pose))]
    pub fn inverse(self) -> Pose
        ensures { result ≡ inverse_pose self }
    {
        let rotation = self.rotation.conjugate();
        let negated = -self.translation;
        Pose {
            translation: rotation.rotate(negated),
            rotation,
        }
    }

    // The pose whose seven numbers begin at `at`.
    #[tactic(auto, unfolding(crate::specs::Pose::pose_at))]
    pub fn read(floats: &[f64], at: usize) -> Pose
        requires { at + 7 ≤ length floats.now }
        ensures { result ≡ pose_at floats.now at }
    {
        Pose {
            translation: Vec3 {
                x: floats[at],
                y: floats[at + 1],
                z: floats[at + 2],
            },
            rotation: Quaternion {
                i: floats[at + 3],
                j: floats[at + 4],
                k: floats[at + 5],
                w: floats[at + 6],
            },
        }
    }

    // The seven numbers of the pose, written to the front of a lent part.
    // Kept: number by number: by way of an array the inverse of a pose, written, takes 11 ns, not 5.
    pub fn write(self, part: &mut [f64])
        requires { 7 ≤ length part.old }
        ensures { part.new ≡ flat self ++ drop 7 part.old }
    {
        let t = self.translation;
        let q = self.rotation;
        part[0] = t.x;
        part[1] = t.y;
        part[2] = t.z;
        part[3] = q.i;
        part[4] = q.j;
        part[5] = q.k;
        part[6] = q.w;
    }
}

// The seven numbers of a pose, in the papers' order.
impl From<Pose> for [f64; 7] {
    ghost use Rattle.arithmetic.specs.Pose.{flat};

    ghost from_gives = { λ pose numbers. numbers ≡ flat pose };

    fn from(pose: Pose) -> [f64; 7] {
        let Pose {
            translation: t,
            rotation: q,
        } = pose;
        [t.x, t.y, t.z, q.i, q.j, q.k, q.w]
    }
}

// T_A_C from T_A_B, which is self, and T_B_C.
impl Mul for Pose {
    type Output = Pose;

    ghost mul_gives = { λ a b r. r ≡ mul_pose a b };

    #[tactic(auto, unfolding(crate::specs::Pose::mul_pose))]
    fn mul(self, b: Pose) -> Pose {
        let rotation = self.rotation;
        let shift = rotation.rotate(b.translation);
        Pose {
            translation: self.translation + shift,
            rotation: rotation * b.rotation,
        }
    }
}

impl Finite for Pose {
    ghost finite = { finite_pose };

    #[tactic(auto, unfolding(crate::specs::Pose::finite_pose))]
    fn is_finite(self) -> bool {
        self.translation.is_finite() & self.rotation.is_finite()
    }
}

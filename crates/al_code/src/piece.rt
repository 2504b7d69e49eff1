// Notes about code as it is written.
ghost use Rattle.std.specs.Prelude.{◌≡◌};
ghost use Rattle.al_code.specs.Pieces.{jump_of};
ghost use Rattle.al_code.specs.Targets.{outside};

use al_instr::Instr;

/// When a jump is taken.
#[derive(Clone, Copy)]
pub enum JumpCondition {
    /// Always.
    Always,
    /// If the word on top, which is popped, is 0.
    IfZero,
}

/// The target of a forward jump.
#[derive(Clone, Copy)]
pub enum Target {
    /// The end of the innermost test: what follows if a condition doesn't hold.
    Next,
    /// The end of the innermost `if`, `case` or short-circuit form.
    Join,
    /// The end of the loop that is so many loops further out.
    Loop(u32),
    /// The end of the routine's statements.
    Routine,
}

/// A construct that ends.
#[derive(Clone, Copy)]
pub enum Construct {
    /// A test, with what depends on it.
    Test,
    /// An `if`, `case` or short-circuit form.
    Choice,
    /// A loop.
    Loop,
    /// The statements of a routine.
    Routine,
}

/// A jump whose end isn't there yet.
#[derive(Clone, Copy)]
pub struct ForwardJump {
    /// The place of its first byte.
    pub place: usize,
    /// Where it leads.
    pub target: Target,
}

impl JumpCondition {
    /// The jump that this condition takes, over `distance` bytes.
    pub fn jump(self, distance: i32) -> Instr
        ensures { result ≡ jump_of self distance }
    {
        match self {
            JumpCondition::Always => Instr::Jump(distance),
            JumpCondition::IfZero => Instr::JumpZero(distance),
        }
    }
}

impl Target {
    /// The target as it is outside of a construct; none if it is the end of that construct.
    pub fn outside(self, construct: Construct) -> Option<Target>
        ensures { result ≡ outside construct self }
    {
        match (construct, self) {
            (Construct::Test, Target::Next) => None,
            (Construct::Choice, Target::Join) => None,
            (Construct::Routine, Target::Routine) => None,
            (Construct::Loop, Target::Loop(0)) => None,
            (Construct::Loop, Target::Loop(loops)) => Some(Target::Loop(loops - 1)),
            _ => Some(self),
        }
    }
}

// Laws of division, in the Manual's words (ARM 4.5.5).
ghost use Rattle.al_static.specs.Laws.{DivisionsLeaveRemainders, ModuliFollowTheDivisor};

/// A number is its quotient times the divisor, with the remainder, which is less than the divisor (ARM 4.5.5(5, 6)).
pub fn divisions_leave_remainders()
    ensures { DivisionsLeaveRemainders }
{}

/// A modulus never has the sign that the divisor hasn't (ARM 4.5.5(7)).
pub fn moduli_follow_the_divisor()
    ensures { ModuliFollowTheDivisor }
{}

//! The bodies of accepted classes are read in step with the walks of the rules.

ghost use Rattle.walked_bodies.specs.Walked.{BodiesAreWalked};

use typed_statements::statements_are_typed;

/// Where no rule on types or on annotations finds anything in a class, the body of each of its methods stands
/// before as many types, names and sites as the walks of the rules pass in it, and its statements are typed before
/// marks stand in them. It does nothing when it runs.
pub fn bodies_are_walked()
    ensures { BodiesAreWalked }
{
    statements_are_typed();
}

//! The law of equal impedances: what both kinds of friction have in common.
ghost use Rattle.charline.specs.Equal.{CutsFactors, MeetHalfway, FlowByTwice};

/// The law of equal impedances: where both characteristics have the impedance of the pipe, as with
/// friction taken explicitly or without any, they meet at half of the sum of their values, and the flow
/// is their difference over twice the impedance.
pub fn equal_impedances()
    ensures factors { CutsFactors }
    ensures head { MeetHalfway }
    ensures flow { FlowByTwice }
{}

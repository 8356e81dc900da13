// The mathematics of a domain: the values of a parabola with a signed curve, its hard arguments on one side and, centred, on both, the segment that
// covers it, its continuation from an argument on, and its parts. No function.

#![tactic(auto)]

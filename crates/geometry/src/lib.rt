// The geometry of a segment: residues, and two-length configurations, by which both searches and the gaps between points are told. No function.

#![tactic(auto)]

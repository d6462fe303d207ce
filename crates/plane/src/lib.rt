// Convex polygons in the plane and when two of them share an inner point (document 02, N10): definitions (specs/) and
// theorems (proofs/). There is no code.

#![tactic(auto)]

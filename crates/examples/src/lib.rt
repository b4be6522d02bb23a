// Document 01's checked examples that are marked P ('Checked examples'), as the rows of one computed table: points, frames, an image, and
// the register values of settings: specs/Rows.antt. specs/Wire.antt has a second table, of ours: what one of each operation sends and
// answers, and by which number it is refused. One record says that all rows of both hold (`Examples`; proofs/Examples.antt).
// The rows use the definitions that the functions' contracts cite. There is no code here and no Rust file. Left out: the examples that
// are not marked, which the harness compares.

#![tactic(auto)]

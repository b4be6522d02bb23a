// What a pattern is: its snippets' points and its sequences' frames, the image that they have, and the content that an image has.
// Document 01, 'The hundred bytes'; demand 3. There is no code here and no Rust file: the builders' and the reader's contracts cite these
// definitions. Proved (proofs/Images.antt): reading undoes writing, two contents have the same image exactly when they are the same in
// the words of demand 3, and what cannot be read is the image of no admitted content.

#![tactic(auto)]

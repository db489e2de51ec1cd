// One preset at two block sizes: the theorem of document 02, request 12, and what is shown of a board that
// is carried to another size. No code.
#![tactic(auto)]

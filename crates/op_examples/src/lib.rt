//! Small runs, computed: of scripts, of primitive statements, of their flat code and of C texts, under the table of operations or under a
//! few rules that stand beside them. Each is a theorem that computes; a definition that means something else is refused here.
#![tactic(auto)]

// The program as its contracts speak of it: a stream's rooms, what lies where in them, and what
// each call does. No code: the definitions stand in specs/.
#![tactic(auto)]

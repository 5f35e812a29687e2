// What the definitions of the link sheet say, proved: specs/ has the theorems. There is no code here.
#![tactic(auto)]

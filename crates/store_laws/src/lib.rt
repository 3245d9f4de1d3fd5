// No running code here: specs/ proves that the arrays stay true to the drawing of the rules.
#![tactic(auto)]

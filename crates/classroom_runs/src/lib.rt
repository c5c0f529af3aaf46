// Lists of orders to the classroom: definitions, theorems and a lesson, no functions.
#![tactic(auto)]

// Lists of calls, of the board and of `spi::transfer` and `bus::event`: definitions, theorems and worked enumerations, no functions.
#![tactic(auto)]

// A season's book: what its bytes mean and what is refused of it stand in specs/, by definition; bookfile has the code.
#![tactic(auto)]

//! Border graphs with their answers, a line each:
//!
//!     METRIC START SOURCE TARGET CAP [row AT ENTRY TARGET COST HOP ..] [link AT FROM AT TO FAR TE ..] [bar WHAT NUMBER ..] ANSWER
//!
//! METRIC is `te` or `hops`; START the domain in which the walk begins, at SOURCE. Addresses are numbers; the
//! near address of a link is its far address and 1000, and its shared risk has the far address as its number.
//! WHAT is excluded is a `domain`, an `address` or a `risk`. ANSWER is `none`, or `cost`, the least cost and
//! the addresses of the chosen walk. `.ci/borders` compares the answers with a list of all walks.

// Worked by hand.
pub const WORKED: &[u8] = b"
# Two domains.
te 1 1 9 100 row 1 1 2 3 11 row 2 5 9 4 12 link 1 2 2 5 21 1 cost 8 11 21 12
# One domain.
te 1 1 9 100 row 1 1 9 7 11 cost 7 11
# The start is an end.
te 1 9 9 100 row 1 9 9 0 11 cost 0 11
# No row from the start.
te 1 1 9 100 row 2 5 9 4 12 link 1 2 2 5 21 1 none
# A child without rows.
te 1 1 9 100 row 1 1 2 1 11 row 1 1 3 1 12 row 3 7 9 50 13 link 1 2 2 5 21 1 link 1 3 3 7 22 1 cost 52 12 22 13
# Within the cap.
te 1 1 9 8 row 1 1 2 3 11 row 2 5 9 4 12 link 1 2 2 5 21 1 cost 8 11 21 12
# Above the cap.
te 1 1 9 7 row 1 1 2 3 11 row 2 5 9 4 12 link 1 2 2 5 21 1 none
# Links of one cost.
te 1 1 9 100 row 1 1 2 3 11 row 2 5 9 4 12 link 1 2 2 5 21 1 link 1 2 2 5 20 1 cost 8 11 20 12
# A dearer link of less address.
te 1 1 9 100 row 1 1 2 3 11 row 2 5 9 4 12 link 1 2 2 5 21 1 link 1 2 2 5 20 2 cost 8 11 21 12
# Rows of one sum.
te 1 1 9 100 row 1 1 3 3 13 row 1 1 2 3 11 row 2 5 9 4 12 link 1 3 2 5 20 1 link 1 2 2 5 21 1 cost 8 11 21 12
# Rows alike.
te 1 1 9 100 row 1 1 2 3 14 row 1 1 2 3 11 row 2 5 9 4 12 link 1 2 2 5 21 1 cost 8 14 21 12
# A cheaper row behind.
te 1 1 9 100 row 1 1 2 5 14 row 1 1 2 3 11 row 2 5 9 4 12 link 1 2 2 5 21 1 cost 8 11 21 12
# The first end.
te 1 1 9 100 row 1 1 9 2 11 row 2 5 9 0 12 link 1 9 2 5 21 1 cost 2 11
# An end in two domains.
te 1 1 9 100 row 1 1 9 6 11 row 1 1 2 1 12 row 2 5 9 3 13 link 1 2 2 5 21 1 cost 5 12 21 13
# Ends of one sum, the farther of less address.
te 1 1 9 100 row 1 1 9 5 11 row 1 1 2 1 12 row 2 5 9 3 13 link 1 2 2 5 21 1 cost 5 12 21 13
# Ends of one sum, the nearer of less address.
te 1 1 2 100 row 1 1 2 5 11 row 1 1 9 1 12 row 2 5 2 3 13 link 1 9 2 5 21 1 cost 5 11
# A domain excluded.
te 1 1 9 100 row 1 1 9 6 11 row 1 1 2 1 12 row 2 5 9 3 13 link 1 2 2 5 21 1 bar domain 2 cost 6 11
# The own domain excluded.
te 1 1 9 100 row 1 1 9 6 11 row 1 1 2 1 12 row 2 5 9 3 13 link 1 2 2 5 21 1 bar domain 1 none
# The last domain excluded.
te 1 1 9 100 row 1 1 2 3 11 row 2 5 9 4 12 link 1 2 2 5 21 1 bar domain 2 none
# A far address excluded.
te 1 1 9 100 row 1 1 2 3 11 row 2 5 9 4 12 link 1 2 2 5 20 1 link 1 2 2 5 21 2 bar address 20 cost 9 11 21 12
# A near address excluded.
te 1 1 9 100 row 1 1 2 3 11 row 2 5 9 4 12 link 1 2 2 5 20 1 link 1 2 2 5 21 2 bar address 1020 cost 9 11 21 12
# A shared risk excluded.
te 1 1 9 100 row 1 1 2 3 11 row 2 5 9 4 12 link 1 2 2 5 20 1 link 1 2 2 5 21 2 bar risk 20 cost 9 11 21 12
# Back into the first domain.
te 1 1 9 100 row 1 1 2 1 11 row 2 5 6 1 12 row 1 3 9 1 13 link 1 2 2 5 21 1 link 2 6 1 3 22 1 cost 5 11 21 12 22 13
# The nearer border is dearer.
te 1 1 9 200 row 1 1 2 0 11 row 2 5 6 0 13 row 3 7 9 10 14 row 3 8 9 100 15 link 1 2 2 5 21 1 link 2 6 3 7 22 5 link 1 2 3 8 23 1 cost 16 11 21 13 22 14
# No rows.
te 1 1 9 100 link 1 2 2 5 21 1 none
# Nothing.
te 1 1 9 100 none
# A link into its own domain.
te 1 1 9 100 row 1 1 2 1 11 row 1 3 9 1 12 link 1 2 1 3 21 1 cost 3 11 21 12
# One address in two domains.
te 1 1 9 100 row 1 1 2 3 11 row 3 5 9 4 12 link 1 2 2 5 21 1 none
# A way round at no cost.
te 1 1 9 100 row 1 1 2 0 11 row 2 5 6 0 12 row 1 3 2 0 13 row 2 5 9 9 14 link 1 2 2 5 21 1 link 2 6 1 3 22 1 cost 10 11 21 14
# Fewer links.
hops 1 1 9 100 row 1 1 2 0 11 row 1 1 3 0 12 row 2 5 9 1 13 link 1 2 2 5 21 90 link 1 3 2 5 22 1 cost 2 11 21 13
";

// Drawn at random by `.ci/borders draw`, with its answers.
pub const DRAWN: &[u8] = b"
hops 1 1 9 100 row 1 1 3 0 99 row 1 2 9 1 100 row 1 1 2 1 101 row 3 3 9 0 102 row 2 1 4 2 103 row 2 4 9 0 104 row 1 1 1 2 105 row 2 3 9 0 106 row 3 4 1 3 107 row 1 3 1 0 108 link 3 1 3 1 47 3 link 3 1 3 2 26 2 link 1 3 2 1 41 3 link 3 1 3 1 53 1 link 2 4 2 4 21 1 cost 4 99 41 103 21 104
hops 1 1 9 100 row 1 1 4 1 99 row 2 1 9 0 100 row 2 2 3 0 101 row 1 1 3 0 102 row 1 4 9 3 103 link 1 3 1 3 23 1 link 1 3 1 4 34 1 link 1 3 2 3 39 1 link 2 4 2 3 59 3 link 1 1 1 3 21 2 link 1 2 1 2 37 1 cost 4 102 34 103
te 1 1 9 100 row 1 1 1 0 99 row 1 2 9 2 100 row 3 1 9 1 101 row 1 1 2 2 102 row 2 2 9 0 103 row 2 2 9 3 104 row 3 4 2 1 105 row 3 2 9 3 106 link 1 1 4 3 46 2 link 4 1 3 2 39 3 link 1 1 1 2 50 1 link 2 1 4 2 31 2 link 1 2 1 2 21 2 cost 3 99 50 100
te 1 1 9 100 row 1 1 3 3 99 row 3 1 2 2 100 row 3 1 9 2 101 row 2 1 9 0 102 row 3 4 4 1 103 row 2 4 1 2 104 row 1 2 2 2 105 link 1 3 3 1 32 3 link 3 3 2 4 45 2 link 2 2 3 1 36 1 link 2 3 2 2 55 2 link 1 2 2 1 20 2 link 3 1 1 4 35 3 link 3 4 2 3 58 1 bar address 1058 cost 8 99 32 101
te 1 1 9 4 row 1 1 4 2 99 row 2 2 9 2 100 row 1 1 4 0 101 row 2 4 4 0 102 row 1 4 9 0 103 row 2 3 4 2 104 row 2 1 9 1 105 link 2 4 1 3 33 2 link 2 3 1 2 36 3 link 1 4 1 4 21 2 link 1 4 2 3 39 3 link 1 1 1 3 54 1 link 1 4 2 3 49 3 bar risk 33 cost 2 101 21 103
hops 1 1 9 4 row 1 1 3 2 99 row 1 4 9 1 100 row 2 3 4 0 101 row 2 4 9 1 102 row 2 3 9 2 103 row 1 3 4 3 104 row 1 2 9 3 105 row 2 3 9 0 106 row 2 4 4 2 107 link 1 2 2 2 41 1 link 1 3 2 4 44 2 link 2 2 2 3 26 1 link 2 3 1 1 37 2 link 1 4 1 3 43 1 link 1 3 1 4 48 1 cost 4 99 44 102
te 1 1 9 4 row 1 1 3 3 99 row 1 3 9 0 100 row 1 3 4 0 101 row 1 3 9 0 102 row 1 2 2 1 103 row 1 4 9 3 104 row 1 4 2 2 105 link 1 3 1 4 31 3 link 2 2 2 3 38 1 link 1 1 2 3 47 1 link 1 3 1 3 42 1 link 2 2 1 3 35 2 link 1 2 1 4 53 1 link 1 3 2 4 30 1 cost 4 99 42 100
te 1 1 9 100 row 1 1 2 0 99 row 3 2 9 0 100 row 2 4 9 0 101 row 1 3 9 0 102 row 3 4 9 2 103 row 2 1 9 3 104 row 2 2 3 1 105 row 1 3 9 3 106 row 2 3 4 2 107 link 1 4 2 3 40 3 link 1 4 2 4 35 2 link 3 1 2 2 44 1 link 1 2 2 3 59 1 link 1 2 2 3 37 1 link 2 4 1 3 41 3 bar risk 40 cost 6 99 37 107 41 102
te 1 1 9 4 row 1 1 4 1 99 row 4 1 9 2 100 row 2 2 4 0 101 row 1 4 2 0 102 link 4 4 1 3 25 3 link 2 4 4 2 34 1 link 2 2 1 2 54 3 link 2 3 3 3 27 2 link 4 4 2 4 24 3 link 1 4 4 1 29 1 link 4 2 3 1 44 2 bar risk 25 cost 4 99 29 100
te 1 1 9 100 row 1 1 3 3 99 row 2 2 9 2 100 row 2 1 9 3 101 row 1 3 9 2 102 row 1 2 3 3 103 row 1 2 9 3 104 row 1 2 9 0 105 row 2 4 2 2 106 row 2 3 9 0 107 link 2 3 2 4 38 1 link 2 3 1 3 43 1 link 1 3 2 2 37 1 link 1 4 1 3 55 3 link 1 1 2 1 44 1 bar risk 38 cost 6 99 37 100
te 1 1 9 100 row 1 1 4 2 99 row 4 2 1 3 100 row 4 4 9 3 101 row 4 4 2 0 102 row 2 4 1 1 103 row 2 3 9 3 104 row 2 3 2 0 105 row 2 4 3 1 106 row 1 3 4 3 107 row 1 3 3 1 108 link 2 3 2 3 20 1 link 2 4 2 4 56 1 link 1 4 4 4 39 1 link 1 4 4 4 26 3 link 1 2 3 4 58 2 cost 6 99 39 101
te 1 1 9 100 row 1 1 1 2 99 row 1 2 9 0 100 row 1 3 3 0 101 row 3 4 3 2 102 row 2 2 9 3 103 row 2 1 4 1 104 row 1 4 9 3 105 row 1 4 9 0 106 row 1 2 9 1 107 row 1 4 2 0 108 link 2 4 3 1 57 2 link 1 1 1 2 43 2 link 2 1 3 3 26 3 cost 4 99 43 100
te 1 1 9 100 row 1 1 3 2 99 row 1 3 1 2 100 row 1 1 4 1 101 row 1 2 9 1 102 link 2 1 1 4 48 2 link 1 2 2 4 35 3 link 2 1 1 4 36 2 link 1 1 2 4 29 2 link 1 4 1 2 52 3 cost 5 101 52 102
te 1 1 9 100 row 1 1 4 3 99 row 3 3 2 1 100 row 4 2 1 1 101 row 1 1 4 3 102 row 2 4 9 2 103 row 3 1 3 2 104 link 4 4 4 3 56 3 link 1 4 4 1 40 2 link 1 4 2 4 59 1 link 1 1 3 1 44 1 link 2 1 3 1 22 1 bar risk 56 cost 6 99 59 103
hops 1 1 9 100 row 1 1 4 2 99 row 2 4 9 2 100 row 2 4 9 0 101 row 2 3 9 2 102 row 2 3 9 1 103 row 2 1 1 2 104 row 2 2 9 0 105 link 1 4 2 4 30 3 link 1 1 2 3 53 2 cost 3 99 30 101
te 1 1 9 100 row 1 1 3 1 99 row 2 4 9 1 100 row 2 1 4 2 101 row 2 4 9 2 102 row 2 3 1 1 103 link 2 2 1 2 24 2 link 1 3 1 1 38 1 link 1 3 2 4 34 1 link 2 1 1 2 53 1 link 2 1 2 2 23 3 link 2 4 2 3 55 1 link 1 3 2 4 48 2 cost 3 99 34 100
hops 1 1 9 100 row 1 1 2 0 99 row 2 4 1 2 100 row 1 2 4 0 101 row 2 3 1 0 102 row 1 4 9 3 103 row 2 4 9 0 104 row 2 4 4 3 105 row 1 2 2 2 106 link 2 2 1 3 47 1 link 1 3 1 2 20 2 link 2 3 1 3 42 1 link 2 1 2 1 41 1 link 1 1 1 1 53 1 link 1 2 2 4 37 1 link 1 3 2 4 28 1 bar risk 47 cost 1 99 37 104
te 1 1 9 100 row 1 1 2 1 99 row 3 4 9 3 100 row 3 3 4 3 101 row 2 1 3 2 102 row 3 2 3 3 103 link 3 4 1 3 28 1 link 3 2 3 1 50 3 link 1 4 2 2 21 2 link 2 2 1 4 40 3 link 1 2 3 4 55 3 link 2 1 1 4 52 1 bar risk 28 cost 7 99 55 100
te 1 1 9 100 row 1 1 1 0 99 row 1 3 2 0 100 row 1 3 9 0 101 row 2 1 2 3 102 row 1 2 4 0 103 row 2 1 9 2 104 row 1 3 9 2 105 row 2 2 9 1 106 link 2 3 1 3 49 2 link 2 2 1 4 25 1 link 2 2 1 2 27 2 link 1 1 1 3 43 3 cost 3 99 43 101
hops 1 1 9 100 row 1 1 3 1 99 row 2 1 9 2 100 row 3 1 9 2 101 row 1 4 2 2 102 row 3 2 2 3 103 row 3 2 9 3 104 link 1 3 2 3 21 2 link 1 1 2 2 37 2 link 1 3 2 1 46 1 bar address 21 cost 4 99 46 100
te 1 1 9 100 row 1 1 3 2 99 row 2 2 9 2 100 row 2 2 9 2 101 row 1 4 9 2 102 row 1 3 3 1 103 row 1 2 9 3 104 row 2 4 9 1 105 row 1 3 9 3 106 row 1 4 9 0 107 link 1 4 1 1 25 3 link 2 3 1 1 48 3 link 2 4 2 2 57 2 link 2 1 1 4 46 3 link 2 4 2 3 44 2 link 2 2 2 4 26 3 link 1 3 1 3 43 1 cost 6 99 43 106
hops 1 1 9 100 row 1 1 1 0 99 row 4 1 9 1 100 row 3 4 1 0 101 row 1 2 9 2 102 row 1 2 3 0 103 link 2 1 3 2 57 2 link 1 3 2 2 22 2 link 4 3 1 4 31 2 link 2 2 1 1 28 3 link 2 1 3 3 49 2 link 3 2 3 4 38 3 link 1 1 4 1 24 2 bar address 57 cost 2 99 24 100
te 1 1 9 100 row 1 1 2 1 99 row 3 4 9 0 100 row 1 3 9 0 101 row 1 2 9 0 102 row 2 2 2 3 103 row 2 1 3 3 104 link 3 1 1 3 56 2 link 3 4 1 1 37 3 link 2 3 1 4 24 2 link 1 2 3 4 34 2 link 3 1 3 4 22 1 link 1 4 2 3 53 2 link 1 2 1 1 23 1 cost 3 99 34 100
hops 1 1 9 4 row 1 1 3 1 99 row 3 2 4 1 100 row 3 1 9 2 101 row 3 1 9 2 102 row 2 4 2 2 103 row 1 2 2 0 104 row 2 3 9 1 105 row 1 3 9 0 106 row 2 1 9 0 107 row 1 4 3 0 108 link 3 4 2 1 32 3 link 2 3 2 3 31 2 link 3 4 2 3 55 2 link 1 3 1 3 50 1 link 1 3 1 2 29 2 bar address 32 cost 2 99 50 106
hops 1 1 9 100 row 1 1 4 0 99 row 2 3 9 3 100 row 2 1 9 3 101 row 2 2 3 2 102 row 2 2 9 2 103 row 1 2 9 3 104 row 2 2 1 3 105 link 2 3 1 1 31 1 link 1 3 2 3 35 1 link 1 4 2 2 48 1 cost 3 99 48 103
te 1 1 9 100 row 1 1 3 1 99 row 2 4 4 0 100 row 1 3 9 1 101 row 2 4 3 3 102 row 1 3 3 2 103 row 2 3 9 3 104 row 2 3 4 1 105 row 1 2 2 3 106 link 1 1 1 3 53 3 link 1 3 2 3 47 3 link 1 1 1 3 32 2 link 2 2 1 4 28 2 link 2 3 1 1 50 3 bar address 53 cost 7 99 47 104
te 1 1 9 100 row 1 1 1 3 99 row 1 2 2 3 100 row 2 3 9 3 101 row 1 4 9 1 102 row 1 4 1 1 103 row 2 1 9 1 104 row 2 1 4 2 105 link 1 4 2 1 30 2 link 1 3 1 2 20 2 link 1 1 2 4 27 2 link 1 4 1 1 43 3 link 2 2 2 2 57 2 link 1 1 2 1 48 2 cost 6 99 48 104
te 1 1 9 4 row 1 1 4 0 99 row 1 3 9 2 100 row 1 3 4 0 101 row 3 4 4 2 102 row 3 4 9 2 103 row 1 3 9 0 104 link 3 4 1 2 46 3 link 1 4 3 4 42 2 link 1 3 1 3 53 2 bar address 46 cost 4 99 42 103
";

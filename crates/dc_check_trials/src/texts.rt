//! Certificates by lines, each worked out by hand.

/// `proc f(n) { }` twice, without a condition: threshold 0.
pub const IDLE: &str = "threshold 0
whole 0
diffcost 1
degree 0 products 1
when live 0:1 1:-1
side new
location 0
entry
exit live 0:1 1:-1
side old
location 0
entry
exit live 0:1 1:-1
main
unknown
lambda
dual 0:1 1:1 2:1
end
";

/// `tick n; tick -n;` against `skip;` where n is 0 to 10, statement by statement: a constant for
/// what is to come is 10 before the first, so 10.
pub const APART: &str = "threshold 10
whole 10
diffcost 1
degree 0 products 1
when live 1:-1
side new
location 0
atom 0 1
atom 10 -1
location 1
atom 0 1
atom 10 -1
location 2
entry
keep 0:1
keep 1:1
edge 0 live 1:-1
keep 0:1
keep 1:1
edge 1 live 1:-1
exit live 1:-1
side old
location 0
location 1
entry
edge 0 live 1:-1
exit live 1:-1
main
unknown 0:10 1:10
lambda 2:1 4:1
dual 0:1 1:10 2:1 4:1 5:1 6:1 7:1
end
";

/// The same over the folded systems, in which the two statements are one edge that costs 0: 0.
pub const FOLDED: &str = "threshold 0
whole 0
diffcost 2
degree 0 products 1
cases 1
when live 1:-1
side new
location 0
location 1
entry 0
edge 0 live 1:-1
exit live 1:-1
side old
location 0
location 1
entry 0
edge 0 live 1:-1
exit live 1:-1
main
unknown
lambda
dual 0:1 1:1 2:1 3:1 4:1
end
";

/// `tick n;` against an empty program, without a condition: none, since the equation of n reads 0 = 1.
pub const NONE: &str = "none
diffcost 1
degree 0 products 1
when live 1:-1
side new
location 0
location 1
entry
edge 0 live 1:-1
exit live 1:-1
side old
location 0
entry
exit live 1:-1
main
dual 1:1
end
";

/// Two empty programs under a condition that nothing meets: vacuous.
pub const DEAD: &str = "vacuous
diffcost 1
degree 0 products 1
when dead 0:1 1:1
side new
location 0
entry
exit live 1:-1
side old
location 0
entry
exit live 1:-1
main
unknown
lambda
ray unknown 0:-1
ray lambda
end
";

/// A program with a local in a loop that never ends, whose atom at location 0 says that the local
/// is 0 or more.
pub const LOCAL: &str = "threshold 0
whole 0
diffcost 1
degree 0 products 1
when live 1:-1
side new
location 0
atom 0 0 1
entry
keep
exit live 2:-1
side old
location 0
entry
exit live 1:-1
main
unknown
lambda
dual 0:1 2:1 3:1
end
";

/// Two empty programs under a condition of two cases: n is 0 or more, or n is 7.
pub const CASES: &str = "threshold 0
whole 0
diffcost 2
degree 0 products 1
cases 2
when live 1:-1
when live 0:-7 1:-1
side new
location 0
entry 0
entry 1
exit live 1:-1
side old
location 0
entry 0
entry 1
exit live 1:-1
main
unknown
lambda
dual 0:1 1:1 2:1
end
";

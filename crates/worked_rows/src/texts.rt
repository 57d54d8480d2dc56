//! The texts that the guests come to, each by the name of its guest.

/// Under coverage.
pub const HELLO: &str = "\
H
== aftersight report
steps 5
end power 0
output 1 released 1
records 2
cover findings 0 first none
cover pcs 5 ranges 1
cover range 80000000 80000014
";

/// The first bytes of `HELLO`, to the second byte of a line of its report.
pub const HELLO_CUT: &str = "\
H
== aftersight report
steps 5
end power 0
output 1 released 1
records 2
cover findings 0 first none
co";

/// Of no code at all, for three steps.
pub const NOTHING: &str = "
== aftersight report
steps 3
end limit
output 0 released 0
records 1
cover findings 3 first 0
cover pcs 0 ranges 0
cover outside at 0 pc 80000000 addr 80000000
cover outside at 1 pc 00000000 addr 00000000
cover outside at 2 pc 00000000 addr 00000000
";

/// Under locks, which are required.
pub const UNGUARDED: &str = "\
A
== aftersight report
steps 10
end power 0
output 3 released 1
records 4
locks findings 2 first 6
locks unguarded at 6 pc 80000018 addr 10000000
locks unguarded at 7 pc 8000001c addr 10000000
";

/// The same where nothing is held back.
pub const UNGUARDED_ALL: &str = "\
AAA
== aftersight report
steps 10
end power 0
output 3 released 3
records 4
locks findings 2 first 6
locks unguarded at 6 pc 80000018 addr 10000000
locks unguarded at 7 pc 8000001c addr 10000000
";

/// Under coverage.
pub const TIMED: &str = "
== aftersight report
steps 13
end power 0
output 0 released 0
records 2
cover findings 0 first none
cover pcs 12 ranges 2
cover range 80000000 80000028
cover range 80000040 80000048
";

/// Where the byte comes before the guest looks.
pub const MASKING: &str = "\
@
== aftersight report
steps 8
end power 0
output 1 released 1
records 3
cover findings 0 first none
cover pcs 8 ranges 1
cover range 80000000 80000020
";

/// Where it comes one step later.
pub const MASKING_LATE: &str = "\
\0
== aftersight report
steps 8
end power 0
output 1 released 1
records 3
cover findings 0 first none
cover pcs 8 ranges 1
cover range 80000000 80000020
";

/// Under coverage.
pub const READING: &str = "\
Q
== aftersight report
steps 17
end power 0
output 1 released 1
records 133
cover findings 0 first none
cover pcs 13 ranges 1
cover range 80000000 80000034
";

/// Under marked input.
pub const JUMPING: &str = "
== aftersight report
steps 10
end power 0
output 0 released 0
records 2
taint findings 1 first 7
taint jump at 7 pc 8000001c addr 80000024
";

/// Under marked input.
pub const JUMPING_CLEAN: &str = "
== aftersight report
steps 10
end power 0
output 0 released 0
records 2
taint findings 0 first none
";

/// After the dots.
pub const DOTS: &str = "
== aftersight report
steps 12906
end power 0
output 4300 released 4300
records 4334
cover findings 0 first none
cover pcs 9 ranges 1
cover range 80000000 80000024
";

/// Under all analyses.
pub const ECHO: &str = "\
hi

== aftersight report
steps 53
end power 0
output 3 released 3
records 15
heap findings 0 first none
taint findings 0 first none
calls findings 0 first none
calls unmatched 0
cover findings 0 first none
cover pcs 18 ranges 1
cover range 80000000 80000048
locks findings 0 first none
";

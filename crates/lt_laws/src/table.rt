//! The laws: their names, and their statements as texts.
//!
//! A text is in post-order, as lt_tables reads it: first each variable's letter with its type, then
//! the statement.

/// The laws in order, each with its statement.
pub(crate) const LAWS: [(&str, &str); 32] = [
    (
        "rel_fun_app",
        "a:c:~R=b:d:~S=a:b:>f=c:d:>g=a:x=c:y= R!S!f!g!x!y!i#a:c:b:d:F#R%.S%.f%.g%..i#R%x%.y%.\
         .S%f%x%..g%y%....y^.x^.g^.f^.S^.R^.",
    ),
    (
        "rel_fun_abs",
        "a:c:~R=b:d:~S=a:b:>f=c:d:>g=a:x=c:y= R!S!f!g!i#x!y!i#R%x%.y%..S%f%x%..g%y%...y^.x^..\
         a:c:b:d:F#R%.S%.f%.g%..g^.f^.S^.R^.",
    ),
    ("rel_fun_eq", "a:b:>a:b:>~e#a:a:b:b:F#a:e#.b:e#..a:b:>e#."),
    ("left_total_eq", "a:a:l#a:e#."),
    ("right_total_eq", "a:a:r#a:e#."),
    ("left_unique_eq", "a:a:u#a:e#."),
    ("right_unique_eq", "a:a:v#a:e#."),
    ("bi_total_eq", "a:a:t#a:e#."),
    ("bi_unique_eq", "a:a:b#a:e#."),
    ("id_quotient", "a:a:Q#a:e#.a:I#.a:I#.a:e#."),
    (
        "fun_quotient",
        "a:a:~1=a:c:>2=c:a:>3=a:c:~4=b:b:~5=b:d:>6=d:b:>7=b:d:~8= 1!2!3!4!5!6!7!8!i#a:c:Q#1%.\
         2%.3%.4%..i#b:d:Q#5%.6%.7%.8%..a:b:>c:d:>Q#a:a:b:b:F#1%.5%..c:a:b:d:m#3%.6%..a:c:d:\
         b:m#2%.7%..a:c:b:d:F#4%.8%....8^.7^.6^.5^.4^.3^.2^.1^.",
    ),
    (
        "quotient_compose",
        "a:a:~1=a:b:>2=b:a:>3=a:b:~4=b:b:~5=b:c:>6=c:b:>7=b:c:~8= 1!2!3!4!5!6!7!8!i#a:b:Q#1%.\
         2%.3%.4%..i#b:c:Q#5%.6%.7%.8%..a:c:Q#a:b:a:R#4%.b:b:a:R#5%.a:b:V#4%....b:c:a:C#6%.2%\
         ..b:a:c:C#3%.7%..a:b:c:R#4%.8%....8^.7^.6^.5^.4^.3^.2^.1^.",
    ),
    (
        "quotient_lift",
        "a:a:~R=a:b:>A=b:a:>B=a:b:~T=a:t=b:c= R!A!B!T!t!c!i#a:b:Q#R%.A%.B%.T%..i#R%t%.t%..i#\
         b:e#c%.A%t%...T%t%.c%....c^.t^.T^.B^.A^.R^.",
    ),
    (
        "quotient_right_total",
        "a:a:~R=a:b:>A=b:a:>B=a:b:~T= R!A!B!T!i#a:b:Q#R%.A%.B%.T%..a:b:r#T%..T^.B^.A^.R^.",
    ),
    (
        "quotient_right_unique",
        "a:a:~R=a:b:>A=b:a:>B=a:b:~T= R!A!B!T!i#a:b:Q#R%.A%.B%.T%..a:b:v#T%..T^.B^.A^.R^.",
    ),
    (
        "quotient_rel",
        "a:a:~R=a:b:>A=b:a:>B=a:b:~T= R!A!B!T!i#a:b:Q#R%.A%.B%.T%..a:b:a:o:>b:o:>F#T%.a:b:o:\
         o:F#T%.o:e#..R%.b:e#..T^.B^.A^.R^.",
    ),
    (
        "quotient_domain",
        "a:a:~R=a:b:>A=b:a:>B=a:b:~T=a:x= R!A!B!T!i#a:b:Q#R%.A%.B%.T%..a:o:>e#a:b:D#T%..R%x%.\
         x%.x^..T^.B^.A^.R^.",
    ),
    (
        "typedef_quotient",
        "a:o:>P=a:b:>A=b:a:>B=a:b:~T=b:y=a:r=a:x= P!A!B!T!i#y!P%B%y%..y^..i#y!b:e#A%B%y%...y%\
         .y^..i#r!i#P%r%..a:e#B%A%r%...r%..r^..i#a:b:~e#T%.a:e#x%.B%y%..y^x^..a:b:Q#a:O#P%..\
         A%.B%.T%.....T^.B^.A^.P^.",
    ),
    (
        "typedef_bi_unique",
        "a:b:>A=b:a:>B=a:b:~T=b:y=a:x= A!B!T!i#y!b:e#A%B%y%...y%.y^..i#a:b:~e#T%.a:e#x%.B%y%.\
         .y^x^..a:b:b#T%...T^.B^.A^.",
    ),
    (
        "typedef_domain",
        "a:o:>P=a:b:>A=b:a:>B=a:b:~T=b:y=a:r=a:x= P!A!B!T!i#y!P%B%y%..y^..i#y!b:e#A%B%y%...y%\
         .y^..i#r!i#P%r%..a:e#B%A%r%...r%..r^..i#a:b:~e#T%.a:e#x%.B%y%..y^x^..a:o:>e#a:b:D#T%\
         ..P%.....T^.B^.A^.P^.",
    ),
    (
        "class_nonempty",
        "a:a:~R=a:o:>C=a:x= R!i#a:p#R%..a:x#n#R%x%.x%..a:o:>e#C%.R%x%...x^.C^R%a:s#R%x%.x%.x^\
         ....R^.",
    ),
    (
        "class_quotient",
        "a:a:~R=a:o:>b:>K=b:a:~L=a:b:>A=b:a:>B=a:b:~T=b:y=a:o:>C=a:x= R!K!L!A!B!T!i#a:p#R%..\
         i#y!a:x#n#R%x%.x%..a:o:>e#C%.R%x%...x^.C^L%y%..y^..i#y!b:e#K%L%y%...y%.y^..i#C!i#a:\
         x#n#R%x%.x%..a:o:>e#C%.R%x%...x^.C^C%..a:o:>e#L%K%C%...C%..C^..i#a:b:>e#A%.K%R%x%..\
         x^..i#b:a:>e#B%.a:s#L%y%..y^..i#a:b:~e#T%.n#R%x%.x%..b:e#A%x%..y%..y^x^..a:b:Q#R%.A%\
         .B%.T%........T^.B^.A^.L^.K^.R^.",
    ),
    (
        "quotient_rep",
        "a:a:~R=a:b:>A=b:a:>B=a:b:~T=b:y= R!A!B!T!i#a:b:Q#R%.A%.B%.T%..y!R%B%y%..B%y%..y^..T^\
         .B^.A^.R^.",
    ),
    (
        "abs_eq_step",
        "a:a:~1=a:c:>2=c:a:>3=a:c:~4=b:b:~5=b:d:>6=d:b:>7=b:d:~8=a:b:>t=a:x= 1!2!3!4!5!6!7!8!\
         t!x!i#a:c:Q#1%.2%.3%.4%..i#b:d:Q#5%.6%.7%.8%..i#a:a:b:b:F#1%.5%.t%.t%..i#1%x%.x%..d:\
         e#c:a:b:d:m#3%.6%.t%.2%x%...6%t%x%.......x^.t^.8^.7^.6^.5^.4^.3^.2^.1^.",
    ),
    (
        "typedef_rep_abs",
        "a:o:>P=a:b:>A=b:a:>B=a:b:~T=a:x= P!A!B!T!x!i#a:b:Q#a:O#P%..A%.B%.T%..i#a:O#P%.x%.x%.\
         .a:e#B%A%x%...x%...x^.T^.B^.A^.P^.",
    ),
    (
        "map_fun_apply",
        "c:a:>f=b:d:>g=a:b:>h=c:x= f!g!h!x!d:e#c:a:b:d:m#f%.g%.h%.x%..g%h%f%x%....x^.h^.g^.f^\
         .",
    ),
    ("id_apply", "a:x= x!a:e#a:I#x%..x%.x^."),
    (
        "relcompp_intro",
        "a:b:~R=b:c:~S=a:x=b:y=c:z= R!S!x!y!z!i#R%x%.y%..i#S%y%.z%..a:b:c:R#R%.S%.x%.z%...z^.\
         y^.x^.S^.R^.",
    ),
    (
        "relcompp_eq_left",
        "a:b:~T= T!a:b:~e#a:a:b:R#a:e#.T%..T%.T^.",
    ),
    (
        "relcompp_eq_right",
        "a:b:~R= R!a:b:~e#a:b:b:R#R%.b:e#..R%.R^.",
    ),
    (
        "relcompp_assoc",
        "a:b:~R=b:c:~S=c:d:~T= R!S!T!a:d:~e#a:c:d:R#a:b:c:R#R%.S%..T%..a:b:d:R#R%.b:c:d:R#S%.\
         T%...T^.S^.R^.",
    ),
    (
        "rel_fun_distr",
        "a:b:~R=c:d:~S=b:e:~U=d:k:~V=a:c:>f=e:k:>h= R!S!U!V!f!h!i#a:c:>b:d:>e:k:>R#a:b:c:d:F#\
         R%.S%..b:e:d:k:F#U%.V%..f%.h%..a:e:c:k:F#a:b:e:R#R%.U%..c:d:k:R#S%.V%..f%.h%..h^.f^.\
         V^.U^.S^.R^.",
    ),
];

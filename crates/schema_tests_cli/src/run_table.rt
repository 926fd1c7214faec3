// Runs of `cedar-schema`. ␤ stands for a line feed.

/// The words, the bytes of the standard input, the code, the output, the error output and what files hold after, with
/// `‖` between them.
pub fn run_lines() -> &'static str {
    "\
‖‖2‖‖error: no command is given␤usage: cedar-schema check|format [OPTION].. FILE.. (--help tells more)␤‖
chekc fine‖‖2‖‖error: no such command: `chekc`␤usage: cedar-schema check|format [OPTION].. FILE.. (--help tells more)␤‖
check‖‖2‖‖error: no file is named␤usage: cedar-schema check|format [OPTION].. FILE.. (--help tells more)␤‖
check --write fine‖‖2‖‖error: no such option: `--write`␤usage: cedar-schema check|format [OPTION].. FILE.. (--help tells more)␤‖
format fine --color‖‖2‖‖error: no such option: `--color`␤usage: cedar-schema check|format [OPTION].. FILE.. (--help tells more)␤‖
check fine‖‖0‖‖‖
check fine --all‖‖0‖‖‖
check --format=short twice undefined fine‖‖1‖twice:1:15: error: definition of `N::A` illegally shadows the existing definition of `A`␤undefined:2:13: error: failed to resolve type: C␤‖‖
check undefined‖‖1‖error: failed to resolve type: C␤ --> undefined:2:13␤  |␤2 | entity B in C;␤  |             ^␤‖‖
check --format=json undefined‖‖1‖{\"help\":null,\"message\":\"failed to resolve type: C\",\"path\":\"undefined\",\"places\":[{\"end\":{\"byte\":23,\"column\":14,\"line\":2,\"utf16\":14},\"start\":{\"byte\":22,\"column\":13,\"line\":2,\"utf16\":13},\"text\":null}],\"rule\":null,\"severity\":\"error\"}␤‖‖
check --format=json --format=github undefined‖‖1‖::error file=undefined,line=2,col=13,endLine=2,endColumn=14::failed to resolve type: C␤‖‖
check -‖entity A;‖0‖‖‖
check missing‖‖3‖error: there is no such file␤ --> missing␤‖‖
check --format=short missing fine‖‖3‖missing: error: there is no such file␤‖‖
check raw‖‖5‖error: the input is not UTF-8␤ --> raw␤‖‖
check --format=short broken missing‖‖1‖broken:1:10: error: invalid token␤missing: error: there is no such file␤‖‖
check --format=short - fine‖entity A ~;‖1‖-:1:10: error: invalid token␤‖‖
format fine‖‖0‖entity A;␤‖‖
format loose fine‖‖0‖entity A, B;␤entity A;␤‖‖loose‖entity A,B;
format -‖entity A,B;‖0‖entity A, B;␤‖‖
format --check fine‖‖0‖‖‖
format --check fine loose‖‖1‖loose␤‖‖loose‖entity A,B;
format --write loose fine‖‖0‖‖‖loose‖entity A, B;␤‖fine‖entity A;␤
format --write - loose‖entity C,D;‖0‖entity C, D;␤‖‖loose‖entity A, B;␤
format --format=short --write broken loose‖‖1‖‖broken:1:10: error: invalid token␤‖broken‖entity A ~;␤‖loose‖entity A, B;␤
format --format=short broken‖‖1‖‖broken:1:10: error: invalid token␤‖
"
}

// Laws of tokens.
ghost use Rattle.erl_scan.specs.Marks.{MarksAreLongest};
ghost use Rattle.erl_scan.specs.Tokens.{ComesOne, ReadsOne};

use erl_chars::quotes_read_one_way;

/// A law: of the marks that characters begin with, the longest is read.
pub fn marks_are_longest()
    ensures { MarksAreLongest }
{}

/// A law: one thing comes next in a text, and as many tokens of it are read in one way.
pub fn tokens_read_one_way()
    ensures comes { ComesOne }
    ensures reads { ReadsOne }
{
    quotes_read_one_way();
}

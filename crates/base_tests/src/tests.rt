mod check_sums;
mod fields;
mod grammars;
mod part_numbers;
mod printing;
mod texts_and_hosts;
